// The tables tried: every two of eight kinds, every lock of three rows, every value of them, known or with one bit X.
ghost use Rattle.std.specs.Prelude.{◌≤◌, ◌<◌};

use crate::rows::Rows;
use crate::{Question, agrees};
use oracle::numbers::power;
use trials::counting::{Tally, each, one};

// A kind of two operands of one width: and, or, xor, add, sub, mul, load or store.
fn kind(n: u64) -> u64 {
    match n % 8 {
        0 => 2,
        1 => 3,
        2 => 4,
        3 => 13,
        4 => 14,
        5 => 16,
        6 => 24,
        _ => 25,
    }
}

// Both bits of row 3.
fn both_bits(rows: Rows, locked: u64, first: u64, second: u64) -> Tally {
    each(2, |bit| {
        let q = Question {
            rows,
            locked,
            first,
            second,
            bit,
        };
        one(agrees(q))
    })
}

// Rows 0 to 2 with these values, known but for bit n - 1 of theirs where n is not 0; row 3 has a value of its own.
fn rows_of(values: u64, n: u64) -> Rows
    requires { (values < 64) × (n ≤ 6) }
{
    let unknown = if n == 0 { 0 } else { power(n - 1) };
    let all = values + (values + 1) % 4 * 64;
    Rows {
        mask: unknown,
        value: (all | unknown) ^ unknown,
    }
}

// Every value of rows 0 to 2, known or with one bit X.
fn each_start(locked: u64, first: u64, second: u64) -> Tally {
    each(
        448,
        |n| both_bits(rows_of(n % 64, n / 64), locked, first, second),
    )
}

// Every lock of rows 0 to 2 and every two kinds: the bits tried, and those where they disagree.
pub fn resets() -> Tally {
    each(512, |n| each_start(n / 64, kind(n), kind(n / 8)))
}
