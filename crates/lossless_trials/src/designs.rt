// A table of ten rows and four records, drawn by its number.
use crate::draws::drawn;
use crate::records::{Record, after, drawn_record};
use crate::rows::{start_rows, width_of};
use crate::starts::{Starts, drawn_starts, pair};
use oracle::numbers::{power, word};

// A table: its number, its start rows 0 to 5, the widths of all rows, and its records in their order. Rows 6 to 9 are there to be written.
#[derive(Clone, Copy)]
pub struct Design {
    pub number: u64,
    pub starts: Starts,
    pub width: [u8; 10],
    pub first: Record,
    pub second: Record,
    pub third: Record,
    pub last: Record,
}

// The table of a number.
pub fn drawn_design(number: u64) -> Design {
    let starts = drawn_starts(number);
    let rows = start_rows(starts);
    let first = drawn_record(number, 0, rows);
    let rows = after(rows, first);
    let second = drawn_record(number, 1, rows);
    let rows = after(rows, second);
    let third = drawn_record(number, 2, rows);
    let rows = after(rows, third);
    let last = drawn_record(number, 3, rows);
    let rows = after(rows, last);
    let width = rows.width;
    Design {
        number,
        starts,
        width,
        first,
        second,
        third,
        last,
    }
}

// The number of row 6, 7, 8 or 9 at the start, where all its bits are known.
pub fn start_number(d: Design, row: u64) -> u64 {
    let width = d.width;
    drawn(d.number, 4, row, power(width_of(width, row)))
}

// The masks of the rows at the start.
pub fn masks(d: Design) -> [u32; 10] {
    let mask = d.starts.mask;
    [
        word(pair(mask, 0)),
        word(pair(mask, 1)),
        word(pair(mask, 2)),
        word(pair(mask, 3)),
        word(pair(mask, 4)),
        word(pair(mask, 5)),
        0,
        0,
        0,
        0,
    ]
}

// The numbers of the rows where those of rows 0 to 5 are these, two bits a row.
pub fn numbers(d: Design, starts: u64) -> [u64; 10] {
    [
        pair(starts, 0),
        pair(starts, 1),
        pair(starts, 2),
        pair(starts, 3),
        pair(starts, 4),
        pair(starts, 5),
        start_number(d, 6),
        start_number(d, 7),
        start_number(d, 8),
        start_number(d, 9),
    ]
}

// The values of the rows at the start.
pub fn values(d: Design) -> [u32; 10] {
    let x = numbers(d, d.starts.value);
    [
        word(x[0]),
        word(x[1]),
        word(x[2]),
        word(x[3]),
        word(x[4]),
        word(x[5]),
        word(x[6]),
        word(x[7]),
        word(x[8]),
        word(x[9]),
    ]
}

// The words of the records.
pub fn words(d: Design) -> [u32; 24] {
    [
        word(d.first.kind),
        word(d.first.t),
        word(d.first.a),
        word(d.first.b),
        word(d.first.p),
        word(d.first.c),
        word(d.second.kind),
        word(d.second.t),
        word(d.second.a),
        word(d.second.b),
        word(d.second.p),
        word(d.second.c),
        word(d.third.kind),
        word(d.third.t),
        word(d.third.a),
        word(d.third.b),
        word(d.third.p),
        word(d.third.c),
        word(d.last.kind),
        word(d.last.t),
        word(d.last.a),
        word(d.last.b),
        word(d.last.p),
        word(d.last.c),
    ]
}
