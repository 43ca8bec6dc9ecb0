// A load or a store as the last record: every row of its span is named and read once, and by a store written too (02, request 11).
use crate::draws::drawn;
use crate::records::{Record, drawn_target};
use crate::rows::{ROWS, Rows, once_read, singleton, suits, unread_row, width_of};
use oracle::shapes::STORE;

// The span, 1 or 2 cells from a base row on, and different rows outside it: the address, and data of the cells' width where they are there.
#[derive(Clone, Copy)]
struct Places {
    base: u64,
    n: u64,
    a: u64,
    b: Option<u64>,
}

// The rows that may be cells: start rows that nothing has read, and nothing has written.
fn free_rows(rows: Rows) -> Rows {
    let width = rows.width;
    Rows {
        width,
        unread: rows.unread & 0b111111,
    }
}

// How many cells a span from this row on has: two where the next row may be one and has the same width.
fn drawn_count(table: u64, free: Rows, base: u64) -> u64 {
    let width = free.width;
    let next = (base % 10 + 1) % 10;
    if suits(free, next, width_of(width, base)) && drawn(table, 3, 7, 4) > 0 {
        return 2;
    }
    1
}

// The rows of a span.
fn span(base: u64, n: u64) -> u64 {
    if n == 2 {
        singleton(base) | singleton(base.wrapping_add(1))
    } else {
        singleton(base)
    }
}

// Rows for a record that has cells, where there are a cell and an address.
fn drawn_places(table: u64, rows: Rows) -> Option<Places> {
    let free = free_rows(rows);
    let base = unread_row(free, drawn(table, 3, 1, ROWS), 0)?;
    let n = drawn_count(table, free, base);
    let rest = once_read(rows, span(base, n));
    let a = unread_row(rest, drawn(table, 3, 2, ROWS), 0)?;
    let rest = once_read(rest, singleton(a));
    let b = unread_row(rest, drawn(table, 3, 3, ROWS), width_of(rows.width, base));
    Some(Places { base, n, a, b })
}

// The record of a kind that has cells, where no row for it is missing.
pub fn drawn_memory(table: u64, rows: Rows, kind: u64) -> Option<Record> {
    let places = drawn_places(table, rows)?;
    let w = width_of(rows.width, places.base);
    let load = Record {
        kind,
        t: drawn_target(table, 3, w, width_of(rows.width, 0)),
        a: places.a,
        b: 0,
        p: places.n,
        c: places.base,
        wt: w,
    };
    if kind == STORE {
        return Some(Record {
            t: 0,
            b: places.b?,
            ..load
        });
    }
    Some(load)
}
