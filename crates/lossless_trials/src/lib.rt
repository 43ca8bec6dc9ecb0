// Small tables that lose nothing (02, request 10), through the public run, each compared with all plain runs from all covered starts.
#![tactic(auto)]

ghost use Rattle.std.specs.Prelude.{◌≤◌};

use designs::{Design, drawn_design, masks, values, words};
use last::{last_cell, last_row};
use oracle::choices::{Row, covers, row_of};
use oracle::numbers::power;
use rows::{at, singleton, width_of};
use runs::{Reached, all_runs};
use tables::run;

mod designs; // designs.rt: a table of ten rows and four records
pub mod draws; // draws.rt: the numbers drawn
mod kinds; // kinds.rt: what each kind asks
mod last; // last.rt: what the last record gives
mod cells; // cells.rt: loads and stores drawn
mod records; // records.rt: the records drawn
mod rows; // rows.rt: the rows while records are drawn
mod runs; // runs.rt: all plain runs
mod starts; // starts.rt: the start rows
pub mod sweeps; // sweeps.rt: the tables tried

// The row of these masks and values.
fn row_at(mask: &[u32; 10], value: &[u32; 10], i: u64) -> Row {
    let i = at(i);
    Row {
        mask: mask[i],
        value: value[i],
    }
}

// The numbers below 64 that a row of this width covers, as a set.
fn covered(w: u64, row: Row) -> u64
    requires { w ≤ 32 }
{
    let end = power(w);
    let mut set: u64 = 0;
    for x in 0..64 {
        if x < end && covers(w, row, x) {
            set |= singleton(x);
        }
    }
    set
}

// Whether a written row covers precisely these numbers.
fn is_precise(d: Design, i: u64, row: Row, numbers: u64) -> bool {
    let width = d.width;
    covered(width_of(width, i), row) == numbers
}

// Whether these rows are what the plain runs reach: rows 6 to 8 precisely, and the last target's bits are known exactly where all runs agree, and are then what
// the runs give.
fn match_runs(d: Design, r: Reached, mask: &[u32; 10], value: &[u32; 10]) -> bool {
    is_precise(d, 6, row_at(mask, value, 6), r.first)
        && is_precise(d, 7, row_at(mask, value, 7), r.second)
        && is_precise(d, 8, row_at(mask, value, 8), r.third)
        && row_at(mask, value, last_row(d, 0)) == row_of(r.last)
        && row_at(mask, value, last_row(d, last_cell(d))) == row_of(r.last_cell)
}

// Whether run and the plain runs agree on the table of this number.
fn agrees(number: u64) -> bool {
    let d = drawn_design(number);
    let width = d.width;
    let lock = [0u8; 10];
    let mut mask = masks(d);
    let mut value = values(d);
    let words = words(d);
    let answer = run(&width, &lock, &mut mask, &mut value, &words, 0, 4);
    answer == Ok(4) && match_runs(d, all_runs(d), &mask, &value)
}
