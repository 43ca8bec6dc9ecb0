// All tables of a kind: every width, parameter and vector.
ghost use Rattle.std.specs.Prelude.{◌<◌, ◌≤◌};

use oracle::choices::Row;
use oracle::numbers::{power, word};
use oracle::shapes::{Shape, fits, uses_condition, uses_second};
use trials::counting::{Tally, joined, none, one};
use trials::{agrees, agrees_twice};
use vector_trials::operation_bits::{product_bits, witnessed_bits};
use vector_trials::ranges::each_pair;

// Every vector of width w, where the row is used; else 0 alone.
fn each_vector<F: Fn(Row) -> Tally>(used: bool, w: u64, tried: F) -> Tally
    requires w_bound { w ≤ 32 }
    requires callable { (v : _) → F.pre tried v }
{
    let end = if used { power(w) } else { 1 };
    let mut tally = none();
    for mask in 0..end {
        for value in 0..end {
            if mask & value == 0 {
                let v = Row {
                    mask: word(mask),
                    value: word(value),
                };
                tally = joined(tally, tried(v));
            }
        }
    }
    tally
}

// Shape n of a kind: four widths of each operand, 32 of the target, 32 parameters.
fn shape(kind: u64, n: u64) -> Shape
    requires { n < 16384 }
    ensures { (result.wa ≤ 4) × (result.wb ≤ 4) }
{
    Shape {
        kind,
        wt: n / 32 % 32 + 1,
        wa: n / 4096 + 1,
        wb: n / 1024 % 4 + 1,
        p: n % 32,
    }
}

// Every shape that fits a kind.
fn each_shape<F: Fn(Shape) -> Tally>(kind: u64, tried: F) -> Tally
    requires { (s : _) → F.pre tried s }
{
    let mut tally = none();
    for n in 0..16384 {
        let s = shape(kind, n);
        if fits(s) {
            tally = joined(tally, tried(s));
        }
    }
    tally
}

// Whether both operand words can name one row.
fn can_name_twice(s: Shape) -> bool {
    uses_second(s.kind) && s.wb == s.wa
}

// Every table of a kind through run, with operand words that name two rows where the kind uses both.
pub fn runs(kind: u64) -> Tally {
    each_shape(kind, |s| {
        each_vector(true, s.wa, |a| {
            each_vector(uses_second(s.kind), s.wb, |b| {
                each_vector(uses_condition(s.kind), 1, |c| one(agrees(s, a, b, c)))
            })
        })
    })
}

// Every table of a kind whose operand words name one row twice, through run.
pub fn runs_of_one_row(kind: u64) -> Tally {
    each_shape(kind, |s| {
        if !can_name_twice(s) {
            return none();
        }
        each_vector(true, s.wa, |a| {
            each_vector(uses_condition(s.kind), 1, |c| one(agrees_twice(s, a, c)))
        })
    })
}

// Every two operands of a kind as bare vectors, through `product_bit`.
pub fn bits(kind: u64) -> Tally {
    each_shape(kind, |s| {
        each_vector(
            true,
            s.wa,
            |a| each_vector(true, s.wb, |b| product_bits(s, a, b)),
        )
    })
}

// The same through `witnesses`.
pub fn witnessed(kind: u64) -> Tally {
    each_shape(kind, |s| {
        each_vector(
            true,
            s.wa,
            |a| each_vector(true, s.wb, |b| witnessed_bits(s, a, b)),
        )
    })
}

// Every vector of the widths of a kind, through `range`.
pub fn ranges(kind: u64) -> Tally {
    each_shape(kind, |s| each_vector(true, s.wa, |a| each_pair(s.wa, a)))
}
