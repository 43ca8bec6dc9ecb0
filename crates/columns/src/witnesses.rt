// Products of nine choices: one that differs from the plain product in a column shows that it is unknown.
ghost use Rattle.std.specs.Prelude.{◌≡◌};
ghost use Rattle.columns.specs.Settled.{Marks, AllUnknown};
ghost use Rattle.columns.specs.Choices.{difference, Witness};

use crate::product;

// Of the unknown bits those at even places, at odd places, and at every second pair of places: with these no column of two wholly unknown words stays open.
const EVEN_PLACES: u32 = 0x5555_5555;

const ODD_PLACES: u32 = 0xAAAA_AAAA;

const BY_TWOS: u32 = 0x6666_6666;

// The columns in which a times b differs from the plain product.
pub fn differing(plain: u32, a: u32, b: u32) -> u32
    ensures { result ≡ difference plain a b }
{
    plain ^ product(a, b)
}

// The columns in which a product of a with one of three numbers that the second operand covers differs from the plain product.
fn seen_with(plain: u32, a: u32, mb: u32, vb: u32) -> u32
    ensures { Marks (Witness plain a mb vb) result }
{
    differing(plain, a, vb | (mb & EVEN_PLACES))
        | differing(plain, a, vb | (mb & ODD_PLACES))
        | differing(plain, a, vb | (mb & BY_TWOS))
}

// Columns in which one of nine covered products differs from the plain one.
pub fn unknown_columns(ma: u32, va: u32, mb: u32, vb: u32) -> u32
    ensures { AllUnknown ma va mb vb result }
{
    let plain = product(va, vb);
    seen_with(plain, va | (ma & EVEN_PLACES), mb, vb)
        | seen_with(plain, va | (ma & ODD_PLACES), mb, vb)
        | seen_with(plain, va | (ma & BY_TWOS), mb, vb)
}
