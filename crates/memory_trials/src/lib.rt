// Loads and stores through the public run, each compared with plain enumeration of address, data and cells, and with plain runs (02, request 11).
// A table has eight rows and one record. Rows 1 to n are the cells, and the rows after them up to 4 have their width. Row 5 is the address and row 6 the data,
// where these are no cells. Row 0 is a load's target.
#![tactic(auto)]

ghost use Rattle.std.specs.Prelude.{◌<◌, ◌≤◌};

use oracle::cells::{Cells, loaded, stored};
use oracle::choices::Row;
use oracle::numbers::{byte, word};
use plain::is_covered;
use tables::run;

mod layouts; // layouts.rt: the tables by their numbers
mod plain; // plain.rt: plain runs
pub mod row_vectors; // row_vectors.rt: the vectors of a row
pub mod sweeps; // sweeps.rt: the tables tried

// The row of the base, and of an address and of data that are no cells.
const BASE: u64 = 1;

const ADDRESS: u64 = 5;

const DATA: u64 = 6;

// A table: whether its record is a store, the widths of the cells and of row 5, the number of cells, the rows of address and data, and all rows.
#[derive(Clone, Copy)]
struct Question {
    store: bool,
    w: u64,
    wa: u64,
    n: u64,
    a: u64,
    b: u64,
    mask: [u32; 8],
    value: [u32; 8],
}

// A row's place in an array of rows.
fn at(row: u64) -> usize
    ensures { result < 8 }
{
    (row % 8) as usize
}

// Row i at the start.
fn row_at(q: Question, i: u64) -> Row {
    let mask = q.mask;
    let value = q.value;
    let i = at(i);
    Row {
        mask: mask[i],
        value: value[i],
    }
}

// The width of row i, at most 3.
fn width_at(q: Question, i: u64) -> u64
    ensures { result ≤ 3 }
{
    if i == ADDRESS { q.wa % 4 } else { q.w % 4 }
}

// The cells, with the rows after them up to 4.
fn cells(q: Question) -> Cells {
    let mask = q.mask;
    let value = q.value;
    Cells {
        mask: [mask[1], mask[2], mask[3], mask[4]],
        value: [value[1], value[2], value[3], value[4]],
    }
}

// The number of a cell by its row: n or more where the row is none.
fn cell_number(row: u64) -> u64 {
    row.wrapping_sub(BASE)
}

// Row i after the record, by enumeration.
fn expected(q: Question, i: u64) -> Row {
    let address = row_at(q, q.a);
    let w = width_at(q, BASE);
    let wa = width_at(q, q.a);
    let k = cell_number(i);
    if q.store && k < q.n {
        let data = row_at(q, q.b);
        return stored(w, k, wa, address, data, row_at(q, i));
    }
    if !q.store && i == 0 {
        return loaded(w, q.n, wa, address, cells(q));
    }
    row_at(q, i)
}

// Whether these rows are the expected ones.
fn are_expected(q: Question, mask: &[u32; 8], value: &[u32; 8]) -> bool {
    (0..8).all(|i| {
        let k = at(i);
        let row = expected(q, i);
        mask[k] == row.mask && value[k] == row.value
    })
}

// The widths of the rows.
fn widths(q: Question) -> [u8; 8] {
    let w = byte(q.w);
    [w, w, w, w, w, byte(q.wa), w, w]
}

// The record.
fn record(q: Question) -> [u32; 6] {
    if q.store {
        return [25, 0, word(q.a), word(q.b), word(q.n), word(BASE)];
    }
    [24, 0, word(q.a), 0, word(q.n), word(BASE)]
}

// Whether run and the enumeration agree, and run covers plain runs from the least numbers that the rows cover, from the greatest, and from others.
fn agrees(q: Question) -> bool {
    let width = widths(q);
    let lock = [0u8; 8];
    let mut mask = q.mask;
    let mut value = q.value;
    let words = record(q);
    let answer = run(&width, &lock, &mut mask, &mut value, &words, 0, 1);
    answer == Ok(1)
        && are_expected(q, &mask, &value)
        && is_covered(q, 0b000, &mask, &value)
        && is_covered(q, 0b111, &mask, &value)
        && is_covered(q, 0b101, &mask, &value)
}
