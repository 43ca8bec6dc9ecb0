// Plain runs of a table, and whether rows cover what they end with.
use crate::{BASE, Question, at, cell_number, row_at, width_at};
use oracle::cells::{load_number, store_number};
use oracle::choices::{Row, covers};

// The number of row i at the start: its unknown bits are those of a choice.
fn start_number(q: Question, choice: u64, i: u64) -> u64 {
    let row = row_at(q, i);
    row.value as u64 | (row.mask as u64 & choice)
}

// The number of row i after the record.
fn end_number(q: Question, choice: u64, i: u64) -> u64 {
    let address = start_number(q, choice, q.a);
    let here = start_number(q, choice, i);
    let k = cell_number(i);
    if q.store && k < q.n {
        return store_number(k, address, start_number(q, choice, q.b), here);
    }
    if !q.store && i == 0 {
        let cell = start_number(q, choice, BASE + address % 4);
        return load_number(q.n, address, cell);
    }
    here
}

// Whether these rows cover the numbers after the record.
pub fn is_covered(q: Question, choice: u64, mask: &[u32; 8], value: &[u32; 8]) -> bool {
    (0..8).all(|i| {
        let k = at(i);
        let row = Row {
            mask: mask[k],
            value: value[k],
        };
        covers(width_at(q, i), row, end_number(q, choice, i))
    })
}
