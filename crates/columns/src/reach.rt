// The end of the columns that unknown bits reach.
ghost use Rattle.columns.specs.Settled.{KnownFrom};

use crate::exact_product;

// All exact products lie between the least and the greatest, so they share the bits above the highest in which these differ.
pub fn end_reached(ma: u32, va: u32, mb: u32, vb: u32) -> u32
    ensures { KnownFrom ma va mb vb result }
{
    let least = exact_product(va, vb);
    let greatest = exact_product(va | ma, vb | mb);
    64 - (least ^ greatest).leading_zeros()
}
