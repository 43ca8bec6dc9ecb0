// eq, ult, slt: one output bit, unknown where some choice of covered operands fails the test and some choice passes it.
ghost use Rattle.std.specs.Prelude.{◌≡◌, ◌-◌, ◌^◌, ◌≤◌, not, ◌&&◌, [], ◌∷◌, bit_and, bit_xor};
ghost use Rattle.bits.specs.Limits.{width_limit};
ghost use Rattle.bits.specs.Bit.{digit};
ghost use Rattle.vectors.specs.Row.{row_of};
ghost use Rattle.operations.specs.Result.{result_of, Ready};
ghost use Rattle.operations.specs.Arithmetic.{op_eq, op_ult, op_slt};

use vectors::Vector;

// The bit of a test that may fail and may hold, as the two flags say.
fn tested(fails: bool, holds: bool) -> Vector
    ensures { (result.mask ≡ digit (fails && holds)) × (result.value ≡ digit (holds && not fails)) }
{
    if !holds {
        return Vector { mask: 0, value: 0 };
    }
    if fails {
        return Vector { mask: 1, value: 0 };
    }
    Vector { mask: 0, value: 1 }
}

// They may differ if a bit is unknown in one or differs, and may be equal if no bit known in both differs.
pub fn eq(w: u32, a: Vector, b: Vector) -> Vector
    requires { (w ≤ width_limit) × Ready op_eq 1 0 (row_of w a ∷ row_of w b ∷ []) }
    ensures { row_of 1 result ≡ result_of op_eq 1 0 (row_of w a ∷ row_of w b ∷ []) }
{
    let unknown = a.mask | b.mask;
    let different = a.value ^ b.value;
    tested((unknown | different) != 0, (different & !unknown) == 0)
}

// It may fail if b's least is at most a's greatest, and may hold if a's least is below b's greatest.
pub fn ult(w: u32, a: Vector, b: Vector) -> Vector
    requires { (w ≤ width_limit) × Ready op_ult 1 0 (row_of w a ∷ row_of w b ∷ []) }
    ensures { row_of 1 result ≡ result_of op_ult 1 0 (row_of w a ∷ row_of w b ∷ []) }
{
    tested(b.value <= (a.value | a.mask), a.value < (b.value | b.mask))
}

// The value with its top bit flipped where it is known: numbers whose top bits are flipped are ordered as unsigned ones.
fn flipped(w: u32, x: Vector) -> u32
    requires { (1 ≤ w) × (w ≤ width_limit) }
    ensures { result ≡ bit_xor x.value (bit_and (2 ^ (w - 1)) (2 ^ 32 - 1 - x.mask)) }
{
    x.value ^ ((1 << (w - 1)) & !x.mask)
}

// As ult, by the least and greatest keys: la is a's least, la | a.mask its greatest.
pub fn slt(w: u32, a: Vector, b: Vector) -> Vector
    requires { (w ≤ width_limit) × Ready op_slt 1 0 (row_of w a ∷ row_of w b ∷ []) }
    ensures { row_of 1 result ≡ result_of op_slt 1 0 (row_of w a ∷ row_of w b ∷ []) }
{
    let la = flipped(w, a);
    let lb = flipped(w, b);
    tested(lb <= (la | a.mask), la < (lb | b.mask))
}
