// The start rows 0 to 5, of 1 or 2 bits.
ghost use Rattle.std.specs.Prelude.{◌<◌};

use crate::draws::drawn;
use oracle::numbers::power;

// The start rows, in three numbers: row i has the bits from 2i on, of which those in `used` are its own.
#[derive(Clone, Copy)]
pub struct Starts {
    pub used: u64,
    pub mask: u64,
    pub value: u64,
}

// The start rows of a table, with any vectors.
pub fn drawn_starts(table: u64) -> Starts {
    let used = drawn(table, 4, 0, 4096) | 0b010101010101;
    let mask = drawn(table, 4, 1, 4096) & used;
    let value = drawn(table, 4, 2, 4096) & used;
    Starts {
        used,
        mask,
        value: (value | mask) ^ mask,
    }
}

// The two bits of row i.
pub fn pair(x: u64, i: u64) -> u64
    requires { i < 6 }
    ensures { result < 4 }
{
    x / power(2 * i) % 4
}

// Whether the start rows cover these numbers, two bits a row: they agree at every known bit, and bits that no row has are 0.
pub fn is_covered(s: Starts, numbers: u64) -> bool {
    numbers | s.mask == s.value | s.mask
}
