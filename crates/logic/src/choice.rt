// ite: the row that a known condition picks, the join of both rows where the condition is unknown.
ghost use Rattle.std.specs.Prelude.{◌≡◌, ◌≤◌, [], ◌∷◌};
ghost use Rattle.bits.specs.Limits.{width_limit};
ghost use Rattle.vectors.specs.Row.{row_of};
ghost use Rattle.operations.specs.Result.{result_of, Ready};
ghost use Rattle.operations.specs.Arithmetic.{op_ite};

use vectors::Vector;

pub fn ite(w: u32, a: Vector, b: Vector, c: Vector) -> Vector
    requires { (w ≤ width_limit) × Ready op_ite w 0 (row_of w a ∷ row_of w b ∷ row_of 1 c ∷ []) }
    ensures { row_of w result ≡ result_of op_ite w 0 (row_of w a ∷ row_of w b ∷ row_of 1 c ∷ []) }
{
    if c.mask == 1 {
        return Vector {
            mask: a.mask | b.mask | (a.value ^ b.value),
            value: a.value & b.value,
        };
    }
    if c.value == 1 {
        return a;
    }
    b
}
