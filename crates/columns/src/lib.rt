// Columns of a product that a few plain products settle, so that only the others are worked out one by one: a column is unknown where two
// covered products differ, and known where no unknown bit can change it (01, "Abstract result").
// Masks and values come as words, which stand in registers (speed: docs/DECISIONS.md, A vector in one word).
#![tactic(auto)]

ghost use Rattle.std.specs.Prelude.{◌≡◌, ◌-◌, ◌*◌, ◌%◌, ◌^◌, min};
ghost use Rattle.std.specs.Int.Count.{count_trailing_zeros};
ghost use Rattle.columns.specs.Settled.{AllKnown};

pub mod choices; // choices.rt: every choice of the unknown bits, where they are few
pub mod low; // low.rt: the columns that few unknown bits reach
mod reach; // reach.rt: the end of the columns that unknown bits reach
pub mod witnesses; // witnesses.rt: nine choices

// 2^32.
const WORD_MODULUS: u64 = 4294967296;

// a · b, exact.
pub fn exact_product(a: u32, b: u32) -> u64
    ensures { result ≡ a * b }
{
    (a as u64) * (b as u64)
}

// a · b modulo 2^32.
pub fn product(a: u32, b: u32) -> u32
    ensures { result ≡ a * b % 2 ^ 32 }
{
    (exact_product(a, b) % WORD_MODULUS) as u32
}

// The ones below column n: all 32 where n is more.
pub fn ones_below(n: u32) -> u32
    ensures { result ≡ 2 ^ min n 32 - 1 }
{
    if n >= 32 {
        return u32::MAX;
    }
    (1u32 << n) - 1
}

// The ones below the lowest set bit of x: all 32 where there is none.
pub fn below_lowest(x: u32) -> u32
    ensures { result ≡ 2 ^ count_trailing_zeros 32 x - 1 }
{
    x.wrapping_sub(1) & !x
}

// Columns that are known whatever the unknown bits are: those below every unknown bit's reach. Bit i of one operand adds to no column below i + j,
// where j is the lowest bit that the other can have, and a product has as many trailing zeros as both factors together.
pub fn known_low(ma: u32, va: u32, mb: u32, vb: u32) -> u32
    ensures { AllKnown ma va mb vb result }
{
    below_lowest(product(ma, mb | vb) | product(mb, ma | va))
}

// And those above the bits in which the least and the greatest exact product differ.
pub fn known_high(ma: u32, va: u32, mb: u32, vb: u32) -> u32
    ensures { AllKnown ma va mb vb result }
{
    !ones_below(reach::end_reached(ma, va, mb, vb))
}
