// not, and, or, xor, bit by bit on the mask and value words (01, "Code places": masks, shifts and bitwise operations).
ghost use Rattle.std.specs.Prelude.{◌≡◌, ◌≤◌, [], ◌∷◌};
ghost use Rattle.bits.specs.Limits.{width_limit};
ghost use Rattle.vectors.specs.Row.{row_of};
ghost use Rattle.operations.specs.Result.{result_of, Ready};
ghost use Rattle.operations.specs.Bitwise.{op_not, op_and, op_or, op_xor};

use bits::width_mask;
use vectors::Vector;

// A bit is 1 where the operand's is known as 0: neither 1 nor unknown.
pub fn not(w: u32, a: Vector) -> Vector
    requires { (w ≤ width_limit) × Ready op_not w 0 (row_of w a ∷ []) }
    ensures { row_of w result ≡ result_of op_not w 0 (row_of w a ∷ []) }
{
    Vector {
        mask: a.mask,
        value: width_mask(w) ^ (a.value | a.mask),
    }
}

// Unknown where the greatest operands give 1 and the least ones 0.
pub fn and(w: u32, a: Vector, b: Vector) -> Vector
    requires { (w ≤ width_limit) × Ready op_and w 0 (row_of w a ∷ row_of w b ∷ []) }
    ensures { row_of w result ≡ result_of op_and w 0 (row_of w a ∷ row_of w b ∷ []) }
{
    let value = a.value & b.value;
    Vector {
        mask: ((a.value | a.mask) & (b.value | b.mask)) ^ value,
        value: value,
    }
}

// Unknown where an operand's bit is, and neither is known as 1.
pub fn or(w: u32, a: Vector, b: Vector) -> Vector
    requires { (w ≤ width_limit) × Ready op_or w 0 (row_of w a ∷ row_of w b ∷ []) }
    ensures { row_of w result ≡ result_of op_or w 0 (row_of w a ∷ row_of w b ∷ []) }
{
    let value = a.value | b.value;
    Vector {
        mask: (value | (a.mask | b.mask)) ^ value,
        value: value,
    }
}

// Unknown where an operand's bit is.
pub fn xor(w: u32, a: Vector, b: Vector) -> Vector
    requires { (w ≤ width_limit) × Ready op_xor w 0 (row_of w a ∷ row_of w b ∷ []) }
    ensures { row_of w result ≡ result_of op_xor w 0 (row_of w a ∷ row_of w b ∷ []) }
{
    let mask = a.mask | b.mask;
    Vector {
        mask: mask,
        value: (a.value ^ b.value) & !mask,
    }
}
