// The ten rows while records are drawn: their widths, and those that are unread.
ghost use Rattle.std.specs.Prelude.{◌<◌, ◌≤◌};

use crate::starts::{Starts, pair};
use oracle::numbers::{bit, byte};

// How many rows there are.
pub const ROWS: u64 = 10;

// The widths of the rows, and the set of rows that a record may read: each is a start row or written, and nothing has read it.
#[derive(Clone, Copy)]
pub struct Rows {
    pub width: [u8; 10],
    pub unread: u64,
}

// A row's place in an array of rows.
pub fn at(row: u64) -> usize
    ensures { result < 10 }
{
    (row % 10) as usize
}

// A width as a number of 1 to 32.
fn size(w: u8) -> u64
    ensures { (1 ≤ result) × (result ≤ 32) }
{
    (w as u64 + 31) % 32 + 1
}

// The width of a row.
pub fn width_of(width: [u8; 10], row: u64) -> u64
    ensures { (1 ≤ result) × (result ≤ 32) }
{
    let i = at(row);
    size(width[i])
}

// The width of start row i.
fn start_width(s: Starts, i: u64) -> u8
    requires { i < 6 }
{
    byte((pair(s.used, i) + 1) / 2)
}

// The rows before any record: rows 6 to 9, the targets, have width 1 until they are written.
pub fn start_rows(s: Starts) -> Rows {
    Rows {
        width: [
            start_width(s, 0),
            start_width(s, 1),
            start_width(s, 2),
            start_width(s, 3),
            start_width(s, 4),
            start_width(s, 5),
            1,
            1,
            1,
            1,
        ],
        unread: 0b111111,
    }
}

// The set of one number below 64: bit x.
pub fn singleton(x: u64) -> u64 {
    1u64 << (x % 64)
}

// The rows once those of a set are read.
pub fn once_read(rows: Rows, set: u64) -> Rows {
    let width = rows.width;
    Rows {
        width,
        unread: (rows.unread | set) ^ set,
    }
}

// The rows once one of them is written, with this width.
pub fn once_written(rows: Rows, row: u64, w: u64) -> Rows {
    let mut width = rows.width;
    let i = at(row);
    width[i] = byte(w);
    Rows {
        width,
        unread: rows.unread | singleton(row),
    }
}

// Whether a row may be read and has this width (0: any).
pub fn suits(rows: Rows, row: u64, w: u64) -> bool
    requires { row < 10 }
{
    let width = rows.width;
    bit(rows.unread, row) == 1 && (w == 0 || width_of(width, row) == w)
}

// The first such row at or after a place, then from row 0 on.
pub fn unread_row(rows: Rows, place: u64, w: u64) -> Option<u64>
    requires { place < 10 }
{
    (0..ROWS)
        .map(|k| (place + k) % ROWS)
        .find(|row| suits(rows, *row, w))
}
