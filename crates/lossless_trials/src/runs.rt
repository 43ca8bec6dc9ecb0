// All plain runs of a table, and what they reach.
ghost use Rattle.std.specs.Prelude.{◌^◌, ◌<◌, ◌≤◌};

use crate::designs::{Design, numbers};
use crate::draws::remainder;
use crate::last::{last_bits, last_cell};
use crate::records::Record;
use crate::rows::{at, singleton, width_of};
use crate::starts::is_covered;
use oracle::choices::{Seen, both, nothing};
use oracle::numbers::power;
use oracle::plain::plain;
use oracle::shapes::Shape;

// The numbers that rows 6 to 8 get, as sets (bit x for the number x), and the bits that the last target gets: of a store the first cell of its span, and the
// last one.
#[derive(Clone, Copy)]
pub struct Reached {
    pub first: u64,
    pub second: u64,
    pub third: u64,
    pub last: Seen,
    pub last_cell: Seen,
}

// A record's kind, widths and parameter.
fn shape(width: [u8; 10], r: Record) -> Shape {
    Shape {
        kind: r.kind,
        wt: width_of(width, r.t),
        wa: width_of(width, r.a),
        wb: width_of(width, r.b),
        p: r.p % 32,
    }
}

// A number of w bits.
fn bits(x: u64, w: u64) -> u64
    requires { w ≤ 32 }
    ensures { (result < 2 ^ w) × (result < 4294967296) }
{
    remainder(x, power(w))
}

// The number that a record gives its target.
pub fn result(d: Design, r: Record, numbers: [u64; 10]) -> u64 {
    let width = d.width;
    let s = shape(width, r);
    let a = at(r.a);
    let b = at(r.b);
    let c = at(r.c);
    plain(
        s,
        bits(numbers[a], s.wa),
        bits(numbers[b], s.wb),
        numbers[c],
    )
}

// The rows' numbers once a record has run.
fn step(d: Design, r: Record, numbers: [u64; 10]) -> [u64; 10] {
    let mut after = numbers;
    let x = result(d, r, numbers);
    let t = at(r.t);
    after[t] = x;
    after
}

// What the runs before reach, and the run from this start.
fn with_run(d: Design, before: Reached, start: u64) -> Reached {
    let end = step(
        d,
        d.third,
        step(d, d.second, step(d, d.first, numbers(d, start))),
    );
    Reached {
        first: before.first | singleton(end[6]),
        second: before.second | singleton(end[7]),
        third: before.third | singleton(end[8]),
        last: both(before.last, last_bits(d, end, 0)),
        last_cell: both(before.last_cell, last_bits(d, end, last_cell(d))),
    }
}

// What all plain runs from covered starts reach.
pub fn all_runs(d: Design) -> Reached {
    let mut all = Reached {
        first: 0,
        second: 0,
        third: 0,
        last: nothing(),
        last_cell: nothing(),
    };
    for start in 0..4096 {
        if is_covered(d.starts, start) {
            all = with_run(d, all, start);
        }
    }
    all
}
