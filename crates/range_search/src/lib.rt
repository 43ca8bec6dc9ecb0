// The numbers between two ends that a vector covers (02, request 8): the smallest, the largest, and the best vector for all of them.
#![tactic(auto)]

ghost use Rattle.std.specs.Prelude.{◌≡◌, ◌^◌, ◌≤◌, ◌<◌};
ghost use Rattle.vectors.specs.Row.{row, WellFormed};
ghost use Rattle.range_search.specs.Extremes.{Greatest};
ghost use Rattle.range_search.specs.Range.{in_range_of};
ghost use Rattle.range_search.specs.Encoding.{taken, PartUpTo, spanned};

use vectors::Vector;

// Bit k of the mask where it is at most room, else 0.
#[tactic(auto, using(crate::proofs::Places::at_place))]
fn fitting_bit(m: u32, k: u32, room: u32) -> u32
    requires { k < 32 }
    ensures { result ≡ taken m k room }
{
    let n = ((m >> k) & 1) << k;
    if n <= room {
        return n;
    }
    0
}

// The greatest number up to bound whose set bits are bits of the mask: one bit a turn, from the top down.
fn greatest_part(w: u32, m: u32, bound: u32) -> u32
    requires { (w ≤ 32) × (m < 2 ^ w) }
    ensures { Greatest (PartUpTo m bound) result }
{
    let mut part = 0;
    for k in (0..w).rev() {
        part += fitting_bit(m, k, bound - part);
    }
    part
}

// The best vector for the covered numbers from a to b, the smallest and the largest of them: from the highest bit in which they differ downwards it is
// unknown where the mask m is, else it has a's bits.
fn span(m: u32, a: u32, b: u32) -> Vector
    ensures { result ≡ spanned m a b }
{
    let n = 32 - (a ^ b).leading_zeros();
    let mask = m & (((1u64 << n) - 1) as u32);
    Vector {
        mask,
        value: a & !mask,
    }
}

// The best vector for a set of numbers, and the smallest and the largest of them.
#[derive(Clone, Copy)]
pub struct Range {
    pub mask: u32,
    pub value: u32,
    pub smallest: u32,
    pub largest: u32,
}

// The numbers from low to high that a vector covers, or `None` where there is none. A covered number is the vector's value and a part of its mask, or value and
// mask less a part of it.
#[tactic(auto, using(crate::proofs::Finding::none_above))]
pub fn in_range(w: u32, m: u32, v: u32, low: u32, high: u32) -> Option<Range>
    requires { (w ≤ 32) × WellFormed (row w m v) }
    ensures { result ≡ in_range_of (row w m v) low high }
{
    let top = v | m;
    if top < low {
        return None;
    }
    let smallest = top - greatest_part(w, m, top - low);
    if high < smallest {
        return None;
    }
    let largest = v + greatest_part(w, m, high - v);
    let best = span(m, smallest, largest);
    Some(Range {
        mask: best.mask,
        value: best.value,
        smallest,
        largest,
    })
}
