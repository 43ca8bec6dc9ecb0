// Four rows of 2 bits, in two numbers.
ghost use Rattle.std.specs.Prelude.{◌<◌};

use oracle::choices::Row;
use oracle::numbers::{power, word};

// Four rows of 2 bits, in two numbers: row i has the bits from 2i on.
#[derive(Clone, Copy, PartialEq, Eq)]
pub struct Rows {
    pub mask: u64,
    pub value: u64,
}

// Row i.
pub fn row_at(r: Rows, i: u64) -> Row
    requires { i < 4 }
{
    let from = power(2 * i);
    Row {
        mask: word(r.mask / from % 4),
        value: word(r.value / from % 4),
    }
}

// The rows with a set of bits X.
pub fn with_unknown(r: Rows, set: u64) -> Rows {
    Rows {
        mask: r.mask | set,
        value: (r.value | set) ^ set,
    }
}

// The rows with another row 3.
pub fn with_last(r: Rows, last: Row) -> Rows {
    Rows {
        mask: r.mask % 64 + last.mask as u64 % 4 * 64,
        value: r.value % 64 + last.value as u64 % 4 * 64,
    }
}

// The masks of the rows, and their values.
pub fn masks(r: Rows) -> [u32; 4] {
    [
        row_at(r, 0).mask,
        row_at(r, 1).mask,
        row_at(r, 2).mask,
        row_at(r, 3).mask,
    ]
}

pub fn values(r: Rows) -> [u32; 4] {
    [
        row_at(r, 0).value,
        row_at(r, 1).value,
        row_at(r, 2).value,
        row_at(r, 3).value,
    ]
}
