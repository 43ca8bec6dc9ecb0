// add, sub and neg on the planes of masks and values (01, "Sums" and "Code places and language forms").
// Wrapping sums of the least and of the greatest operands, then cut to the width: no loop over bits.
#![tactic(auto)]

ghost use Rattle.std.specs.Prelude.{◌≡◌, ◌-◌, ◌%◌, ◌^◌, ◌≤◌, [], ◌∷◌, bit_and, bit_or, bit_xor};
ghost use Rattle.bits.specs.Limits.{width_limit};
ghost use Rattle.vectors.specs.Row.{row_of};
ghost use Rattle.operations.specs.Arithmetic.{op_add, op_sub, op_neg};
ghost use Rattle.operations.specs.Result.{result_of, Ready};

use bits::width_mask;
use vectors::Vector;

// A bit is unknown where an operand's bit is or where the least and the greatest result differ; else it is the least result's bit.
fn from_extremes(w: u32, unknown: u32, least: u32, greatest: u32) -> Vector
    requires { (1 ≤ w) × (w ≤ width_limit) }
    ensures { (result.mask ≡ bit_or unknown (bit_xor least greatest) % 2 ^ w) × (result.value ≡ bit_and least (2 ^ w - 1 - result.mask)) }
{
    let ones = width_mask(w);
    let mask = (unknown | (least ^ greatest)) & ones;
    Vector {
        mask,
        value: least & (!mask & ones),
    }
}

// a + b modulo 2^w. The least operands are the values, the greatest have every unknown bit set.
pub fn add(w: u32, a: Vector, b: Vector) -> Vector
    requires { (w ≤ width_limit) × Ready op_add w 0 (row_of w a ∷ row_of w b ∷ []) }
    ensures { row_of w result ≡ result_of op_add w 0 (row_of w a ∷ row_of w b ∷ []) }
{
    let least = a.value.wrapping_add(b.value);
    let greatest = (a.value | a.mask).wrapping_add(b.value | b.mask);
    from_extremes(w, a.mask | b.mask, least, greatest)
}

// a - b modulo 2^w. The extremes cross: the least difference takes the greatest b, the greatest difference the least b.
pub fn sub(w: u32, a: Vector, b: Vector) -> Vector
    requires { (w ≤ width_limit) × Ready op_sub w 0 (row_of w a ∷ row_of w b ∷ []) }
    ensures { row_of w result ≡ result_of op_sub w 0 (row_of w a ∷ row_of w b ∷ []) }
{
    let least = a.value.wrapping_sub(b.value | b.mask);
    let greatest = (a.value | a.mask).wrapping_sub(b.value);
    from_extremes(w, a.mask | b.mask, least, greatest)
}

// 0 - a modulo 2^w, with the extremes crossed as in sub.
pub fn neg(w: u32, a: Vector) -> Vector
    requires { (w ≤ width_limit) × Ready op_neg w 0 (row_of w a ∷ []) }
    ensures { row_of w result ≡ result_of op_neg w 0 (row_of w a ∷ []) }
{
    let least = (a.value | a.mask).wrapping_neg();
    let greatest = a.value.wrapping_neg();
    from_extremes(w, a.mask, least, greatest)
}
