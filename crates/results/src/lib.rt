// The result of a record without cells: from the dispatch, or at hand where its words a and b name one row and both operands are one number.
#![tactic(auto)]

ghost use Rattle.std.specs.Prelude.{◌≡◌, not, [], ◌∷◌, ◌≤◌, T};
ghost use Rattle.bits.specs.Limits.{width_limit};
ghost use Rattle.vectors.specs.Row.{row_of};
ghost use Rattle.operations.specs.Kind.{is_base};
ghost use Rattle.operations.specs.Kinds.{is_kind, kind_of};
ghost use Rattle.operations.specs.Result.{result_once, Ready};
ghost use Rattle.operations.specs.Record.{words_of, operands, named_twice};

use logic::movement;
use operations::kind::Kind;
use operations::{Record, named_twice};
use vectors::Vector;

// The result of a record over the rows that its words name, at target width wt. A row that the kind does not use counts for nothing;
// the condition of ite is one bit wide.
pub fn of_record(r: Record, wt: u32, wa: u32, wb: u32, a: Vector, b: Vector, c: Vector) -> Vector
    requires fact { let k = kind_of r.kind in
        T (is_kind r.kind) × T (not (is_base k.use_c)) × (wt ≤ width_limit) × (wa ≤ width_limit) × Ready k wt r.p (operands k (row_of wa a) (row_of wb b) (row_of 1 c ∷ [])) }
    requires va_value { T (named_twice (words_of r)) → row_of wa a ≡ row_of wb b }
    ensures { let k = kind_of r.kind in
        row_of wt result ≡ result_once (named_twice (words_of r)) k wt r.p (operands k (row_of wa a) (row_of wb b) (row_of 1 c ∷ [])) }
{
    let kind = Kind::try_from(r.kind).unwrap();
    if !named_twice(r.kind, r.a, r.b) {
        return kernels::apply(kind, wt, wa, wb, a, b, c, r.p);
    }
    // One row, and one number for both operands: every kind that is not listed gives zeros.
    match kind {
        Kind::And => a,
        Kind::Or => a,
        Kind::Concat => movement::concat(wt, wa, wa, a, a),
        Kind::Add => movement::shl(wt, a, 1),
        Kind::Eq => Vector { mask: 0, value: 1 },
        Kind::Ite => a,
        _ => Vector { mask: 0, value: 0 },
    }
}
