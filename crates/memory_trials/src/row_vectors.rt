// The vectors of a row to width 3, and how many there are of rows.
ghost use Rattle.std.specs.Prelude.{◌≤◌};

use oracle::choices::Row;

// 3^k, for k of at most 8.
fn threes(k: u64) -> u64
    ensures { (1 ≤ result) × (result ≤ 6561) }
{
    match k {
        0 => 1,
        1 => 3,
        2 => 9,
        3 => 27,
        4 => 81,
        5 => 243,
        6 => 729,
        7 => 2187,
        _ => 6561,
    }
}

// The vectors of a row of width w: 3^w.
pub fn vectors(w: u64) -> u64
    ensures { (1 ≤ result) × (result ≤ 6561) }
{
    threes(w % 4)
}

// The vectors of k rows of width w, 1 or 2.
pub fn vectors_of(w: u64, k: u64) -> u64
    ensures { (1 ≤ result) × (result ≤ 6561) }
{
    if w == 1 { threes(k) } else { threes(k % 8 * 2) }
}

// A bit, where it is set.
fn bit_of(set: bool, bit: u32) -> u32 {
    if set { bit } else { 0 }
}

// The vector of a number in base 3, digit k for bit k: 0, 1, or 2 for X.
pub fn vector(digits: u64) -> Row {
    let low = digits % 3;
    let middle = digits / 3 % 3;
    let high = digits / 9 % 3;
    Row {
        mask: bit_of(low == 2, 1) | bit_of(middle == 2, 2) | bit_of(high == 2, 4),
        value: bit_of(low == 1, 1) | bit_of(middle == 1, 2) | bit_of(high == 1, 4),
    }
}
