// The low columns: those that few unknown bits reach. A column depends on the operands' bits at and below it alone.
ghost use Rattle.std.specs.Prelude.{◌≡◌, ℕ, ◌+◌, ◌-◌, ◌^◌, ◌≤◌, bit_or};
ghost use Rattle.std.specs.Int.Count.{ones_in};
ghost use Rattle.columns.specs.Formed.{Formed};
ghost use Rattle.columns.specs.Settled.{SettledIn};
ghost use Rattle.columns.specs.Choices.{low_exhaustive_limit};

use crate::below_lowest;
use crate::choices::by_every_choice;

// So many unknown bits of both operands together may stand below the cut.
const LOW_EXHAUSTIVE_LIMIT: u32 = 3;

// The ones below the cut, which is the place of the unknown bit after the lowest LOW_EXHAUSTIVE_LIMIT. Each turn takes the lowest that is left, of the
// first operand where both have one there: `either - 1` has every bit of both but that one.
pub fn below_cut(ma: u32, mb: u32) -> u32
    ensures { (c : ℕ) × (result ≡ 2 ^ c - 1) × (ones_in c ma + ones_in c mb ≤ low_exhaustive_limit) }
{
    let mut a = ma;
    let mut b = mb;
    for taken in 0..LOW_EXHAUSTIVE_LIMIT {
        let either = a | b;
        if either == 0 {
            return u32::MAX;
        }
        b &= (either - 1) | a;
        a &= either - 1;
    }
    below_lowest(a | b)
}

// Every choice of the unknown bits below c is tried, where `low` has the ones below c. The columns below c that no choice changes are known;
// every column that one changes is unknown.
pub fn unknown_low(low: u32, ma: u32, va: u32, mb: u32, vb: u32) -> u32
    ensures { (c : ℕ) → low ≡ 2 ^ c - 1 → SettledIn ma va mb vb result (bit_or result low) }
{
    by_every_choice(ma & low, va, mb & low, vb)
}
