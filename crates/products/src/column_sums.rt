// Column sums, held as i64: at most 32 rows of at most 2^31, so up to 2^36 in size.
ghost use Rattle.std.specs.Prelude.{◌≡◌, ◌*◌, ◌-◌, ◌^◌, ◌≤◌, ◌<◌, pos, ◌-ℤ◌};
ghost use Rattle.bits.specs.Limits.{width_limit};
ghost use Rattle.bits.specs.Bit.{bit};
ghost use Rattle.products.specs.ColumnSum.{column_sum, column_floor, bit_of_floors};
ghost use Rattle.products.specs.Factors.{low_row};

use bits::width_mask;
use vectors::OutputBit;

// What bit i of one factor adds below column k, for the other factor b.
pub fn low_row(b: u32, i: u32, k: u32) -> u32
    requires { (i ≤ k) × (k < width_limit) }
    ensures { result ≡ low_row k i b }
{
    (b & ((1u32 << (k - i)) - 1)) << i
}

// What it adds to the column sum (document 002, equation 48): b shifted to the left by i, its lowest k + 1 bits read as a signed number.
// With the top bit turned round the word is 2^k more than that number.
fn row(b: u32, i: u32, k: u32) -> i64
    requires { (i ≤ k) × (k < width_limit) }
    ensures { result ≡ pos (low_row k i b) -ℤ pos (2 ^ k * bit b (k - i)) }
{
    let half = 1u32 << k;
    let raised = ((b << i) & width_mask(k + 1)) ^ half;
    raised as i64 - half as i64
}

// The sum of the rows whose bit of the first factor is 1: each turn adds the row of the lowest set bit that is left, and clears the bit.
fn column_sum(a: u32, b: u32, k: u32) -> i64
    requires { k < width_limit }
    ensures { result ≡ column_sum k a b }
{
    let mut total: i64 = 0;
    let mut rest = a & width_mask(k + 1);
    while rest != 0 {
        total += row(b, rest.trailing_zeros(), k);
        rest &= rest - 1;
    }
    total
}

// The quotient by 2^k. The shift of an i64 rounds down, also where the sum is negative.
pub fn column_floor(a: u32, b: u32, k: u32) -> i64
    requires { k < width_limit }
    ensures { result ≡ column_floor k a b }
{
    column_sum(a, b, k) >> k
}

// The bit that the floors of the least and the greatest column sum settle.
pub fn bit_of_floors(low: i64, high: i64) -> OutputBit
    ensures { result ≡ bit_of_floors low high }
{
    if low != high {
        return OutputBit::Unknown;
    }
    if low & 1 == 1 {
        return OutputBit::One;
    }
    OutputBit::Zero
}
