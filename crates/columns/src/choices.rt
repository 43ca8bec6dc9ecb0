// Every choice of the unknown bits of both operands, where they are few.
ghost use Rattle.std.specs.Prelude.{◌≡◌, ◌-◌};
ghost use Rattle.std.specs.Int.Count.{ones_in};
ghost use Rattle.columns.specs.Settled.{UnknownExactly};
ghost use Rattle.columns.specs.Choices.{difference_at, exhaustive_limit};

use crate::witnesses::differing;
use crate::{WORD_MODULUS, product};

// So many unknown bits, in both operands together, are tried in every choice.
const EXHAUSTIVE_LIMIT: u32 = 4;

// The columns in which the choice s of unknown bits, those of the first operand in the low half, differs from the plain product.
fn chosen(plain: u32, va: u32, vb: u32, s: u64) -> u32
    ensures { result ≡ difference_at plain va vb s }
{
    differing(
        plain,
        va | ((s % WORD_MODULUS) as u32),
        vb | ((s / WORD_MODULUS) as u32),
    )
}

// The unknown columns: those in which some choice differs from the plain product. The choices are the parts of the unknown bits, from all of
// them down: taking 1 from a part and cutting to the unknown bits gives the next lower part.
pub fn by_every_choice(ma: u32, va: u32, mb: u32, vb: u32) -> u32
    ensures { UnknownExactly ma va mb vb result }
{
    let plain = product(va, vb);
    let unknown = (ma as u64) | ((mb as u64) << 32);
    let mut found: u32 = 0;
    let mut s = unknown;
    while s != 0 {
        found |= chosen(plain, va, vb, s);
        s = (s - 1) & unknown;
    }
    found
}

// x without its lowest EXHAUSTIVE_LIMIT ones: 0 where it has no more of them.
pub fn without_lowest(x: u64) -> u64
    ensures { ones_in 64 result ≡ ones_in 64 x - exhaustive_limit }
{
    let mut rest = x;
    for cleared in 0..EXHAUSTIVE_LIMIT {
        rest &= rest.wrapping_sub(1);
    }
    rest
}
