// What a record makes of rows, by enumeration of all choices.
ghost use Rattle.std.specs.Prelude.{◌≤◌};

use oracle::cells::{Cells, loaded, stored};
use oracle::choices::{Row, enumerated, enumerated_twice};
use oracle::numbers::{power, times};
use oracle::shapes::{LOAD, STORE, Shape};
use reset_trials::rows::{Rows, row_at};

// The words of a record. A load has two cells, and a store has the cells 2 and 3.
#[derive(Clone, Copy)]
pub struct Record {
    pub kind: u64,
    pub t: u64,
    pub a: u64,
    pub b: u64,
    pub p: u64,
    pub c: u64,
}

// The shape of a record that has no cells.
pub fn shape(w: u64, kind: u64) -> Shape {
    let w = if w == 1 { 1 } else { 2 };
    Shape {
        kind,
        wt: w,
        wa: w,
        wb: w,
        p: 0,
    }
}

// The numbers of four rows, with x for row i.
pub fn with_number(numbers: u64, i: u64, x: u64) -> u64 {
    let lowest = power(i % 4 * 2);
    let bits = times(3, lowest);
    ((numbers | bits) ^ bits) | times(x % 4, lowest)
}

// The rows with another row i.
pub fn with_row(rows: Rows, i: u64, row: Row) -> Rows {
    Rows {
        mask: with_number(rows.mask, i, row.mask as u64),
        value: with_number(rows.value, i, row.value as u64),
    }
}

// The target's row after a record that is no store.
fn result(w: u64, r: Record, rows: Rows) -> Row
    requires { w ≤ 2 }
{
    let a = row_at(rows, r.a % 4);
    let c = row_at(rows, r.c % 4);
    if r.kind == LOAD {
        let next = row_at(rows, (r.c % 4 + 1) % 4);
        let cells = Cells {
            mask: [c.mask, next.mask, 0, 0],
            value: [c.value, next.value, 0, 0],
        };
        return loaded(w, 2, w, a, cells);
    }
    let s = shape(w, r.kind);
    if r.a == r.b {
        return enumerated_twice(s, a, c);
    }
    enumerated(s, a, row_at(rows, r.b % 4), c)
}

// The rows after a record.
pub fn rows_after(w: u64, r: Record, rows: Rows) -> Rows
    requires { w ≤ 2 }
{
    if r.kind == STORE {
        let a = row_at(rows, r.a % 4);
        let b = row_at(rows, r.b % 4);
        let first = stored(w, 0, w, a, b, row_at(rows, 2));
        let second = stored(w, 1, w, a, b, row_at(rows, 3));
        return with_row(with_row(rows, 2, first), 3, second);
    }
    with_row(rows, r.t, result(w, r, rows))
}
