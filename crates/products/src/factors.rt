// The factors at which the column sum is least and greatest (document 002, section 7.2).
ghost use Rattle.std.specs.Prelude.{◌≡◌, ℕ, ◌+◌, ◌-◌, ◌≤◌, ◌<◌};
ghost use Rattle.bits.specs.Limits.{width_limit};
ghost use Rattle.bits.specs.Reversed.{reversed};
ghost use Rattle.bits.specs.Four.{reversed_words};
ghost use Rattle.products.specs.Factors.{and_not, least_bit, greatest_bit, extremes_of, with_pair, settled_bit};

use crate::column_sums::{bit_of_floors, column_floor, low_row};
use vectors::OutputBit;

// One factor for each of the two vectors.
#[derive(Clone, Copy)]
pub struct Factors {
    pub a: u32,
    pub b: u32,
}

// The factors with the least and with the greatest column sum.
#[derive(Clone, Copy)]
pub struct Extremes {
    pub least: Factors,
    pub greatest: Factors,
}

// The bits that meet those of the other factor in column k: bit i is bit k - i of x, whose bits `word` has in the other order.
pub fn partners(word: u32, k: u32) -> u32
    requires { k < width_limit }
    ensures { (x : ℕ) → word ≡ reversed 32 x → result ≡ reversed (k + 1) x }
{
    word >> (31 - k)
}

// The bits of x that y does not have.
fn and_not(x: u32, y: u32) -> u32
    ensures { result ≡ and_not x y }
{
    x & !y
}

// An unknown bit whose partner is known takes the partner's bit in the least sum, the other one in the greatest.
pub fn extreme_factors(ma: u32, va: u32, mb: u32, vb: u32, reverses: [u32; 4], k: u32) -> Extremes
    requires { (k < width_limit) × (reverses ≡ reversed_words ma va mb vb) }
    ensures { result ≡ extremes_of k ma va mb vb }
{
    let a_value = partners(reverses[1], k);
    let b_value = partners(reverses[3], k);
    let a_single = and_not(ma, partners(reverses[2], k));
    let b_single = and_not(mb, partners(reverses[0], k));
    let least = Factors {
        a: va | (a_single & b_value),
        b: vb | (b_single & a_value),
    };
    let greatest = Factors {
        a: va | and_not(a_single, b_value),
        b: vb | and_not(b_single, a_value),
    };
    Extremes { least, greatest }
}

// The lone pair's two bits in the least sum (equation 28).
fn least_bit(a: u32, b: u32, i: u32, k: u32) -> u32
    requires { (i ≤ k) × (k < width_limit) }
    ensures { (result ≡ least_bit k i a b) × (result < 2) }
{
    if low_row(b, i, k) + low_row(a, k - i, k) <= 1u32 << k {
        return 1;
    }
    0
}

// The lone pair's first bit in the greatest sum (equation 29).
fn greatest_bit(a: u32, b: u32, i: u32, k: u32) -> u32
    requires { (i ≤ k) × (k < width_limit) }
    ensures { (result ≡ greatest_bit k i a b) × (result < 2) }
{
    if low_row(a, k - i, k) <= low_row(b, i, k) {
        return 1;
    }
    0
}

// The bit that the column sums at the extremes settle.
pub fn settled_bit(x: Extremes, k: u32) -> OutputBit
    requires { k < width_limit }
    ensures { result ≡ settled_bit k x }
{
    let low = column_floor(x.least.a, x.least.b, k);
    let high = column_floor(x.greatest.a, x.greatest.b, k);
    bit_of_floors(low, high)
}

// The extremes where one pair, at place i of the first factor, is unknown on both sides.
pub fn with_pair(x: Extremes, i: u32, k: u32) -> Extremes
    requires { (i ≤ k) × (k < width_limit) }
    ensures { result ≡ with_pair k i x }
{
    let j = k - i;
    let low = least_bit(x.least.a, x.least.b, i, k);
    let high = greatest_bit(x.greatest.a, x.greatest.b, i, k);
    let least = Factors {
        a: x.least.a | (low << i),
        b: x.least.b | (low << j),
    };
    let greatest = Factors {
        a: x.greatest.a | (high << i),
        b: x.greatest.b | ((1 - high) << j),
    };
    Extremes { least, greatest }
}
