// What the last record gives in a plain run: its target's number, or those of a store's cells.
use crate::designs::Design;
use crate::records::Record;
use crate::rows::{at, width_of};
use crate::runs::result;
use oracle::cells::{load_number, store_number};
use oracle::choices::Seen;
use oracle::numbers::{power, word};
use oracle::shapes::{LOAD, STORE};

// Cell i of a record's span, as a row.
fn cell_row(r: Record, i: u64) -> u64 {
    r.c.wrapping_add(i)
}

// The number that the last record gives its target, or cell i of its span where it is a store.
fn last_number(d: Design, numbers: [u64; 10], i: u64) -> u64 {
    let last = d.last;
    let a = at(last.a);
    let b = at(last.b);
    let address = numbers[a];
    let here = at(cell_row(last, i));
    let named = at(cell_row(last, address));
    if last.kind == LOAD {
        return load_number(last.p, address, numbers[named]);
    }
    if last.kind == STORE {
        return store_number(i, address, numbers[b], numbers[here]);
    }
    result(d, last, numbers)
}

// The row that the last record writes: its target, or cell i of its span where it is a store.
pub fn last_row(d: Design, i: u64) -> u64 {
    let last = d.last;
    if last.kind == STORE {
        cell_row(last, i)
    } else {
        last.t
    }
}

// The number of a store's last cell, else 0.
pub fn last_cell(d: Design) -> u64 {
    if d.last.kind == STORE && d.last.p == 2 {
        1
    } else {
        0
    }
}

// The bits of that number in one run.
pub fn last_bits(d: Design, numbers: [u64; 10], i: u64) -> Seen {
    let width = d.width;
    let x = word(last_number(d, numbers, i));
    let full = word(power(width_of(width, last_row(d, i))) - 1);
    Seen {
        zeros: full ^ x,
        ones: x,
    }
}
