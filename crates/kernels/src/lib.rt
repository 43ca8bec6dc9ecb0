// From a kind without cells to its kernel, over independent operands.
#![tactic(auto)]

ghost use Rattle.std.specs.Prelude.{◌≡◌, not, [], ◌∷◌, ◌≤◌, T};
ghost use Rattle.bits.specs.Limits.{width_limit};
ghost use Rattle.vectors.specs.Row.{row_of};
ghost use Rattle.operations.specs.Kind.{is_base};
ghost use Rattle.operations.specs.Kinds.{kind_of};
ghost use Rattle.operations.specs.KindNumbers.{kind_number};
ghost use Rattle.operations.specs.Result.{result_of, Ready};
ghost use Rattle.operations.specs.Record.{operands};

use logic::{choice, comparison, logical, movement};
use operations::kind::Kind;
use vectors::Vector;
use wide_products::wide_product;

// The result of a kind over its operand rows, at target width wt and with parameter p. A row that the kind does not use counts for nothing;
// the condition of ite is one bit wide.
pub fn apply(
    kind: Kind,
    wt: u32,
    wa: u32,
    wb: u32,
    a: Vector,
    b: Vector,
    c: Vector,
    p: u32,
) -> Vector
    requires { let k = kind_of (kind_number kind) in
        T (not (is_base k.use_c)) × (wt ≤ width_limit) × (wa ≤ width_limit) × Ready k wt p (operands k (row_of wa a) (row_of wb b) (row_of 1 c ∷ [])) }
    ensures { let k = kind_of (kind_number kind) in
        row_of wt result ≡ result_of k wt p (operands k (row_of wa a) (row_of wb b) (row_of 1 c ∷ [])) }
{
    match kind {
        Kind::Copy => movement::copy(wt, a),
        Kind::Not => logical::not(wt, a),
        Kind::And => logical::and(wt, a, b),
        Kind::Or => logical::or(wt, a, b),
        Kind::Xor => logical::xor(wt, a, b),
        Kind::Shl => movement::shl(wt, a, p),
        Kind::Lshr => movement::lshr(wt, a, p),
        Kind::Ashr => movement::ashr(wt, a, p),
        Kind::Rotl => movement::rotl(wt, a, p),
        Kind::Extract => movement::extract(wt, wa, a, p),
        Kind::Concat => movement::concat(wt, wa, wb, a, b),
        Kind::Zext => movement::zext(wt, wa, a),
        Kind::Sext => movement::sext(wt, wa, a),
        Kind::Add => sums::add(wt, a, b),
        Kind::Sub => sums::sub(wt, a, b),
        Kind::Neg => sums::neg(wt, a),
        Kind::Mul => products::mul(wt, a, b),
        Kind::Eq => comparison::eq(wa, a, b),
        Kind::Ult => comparison::ult(wa, a, b),
        Kind::Slt => comparison::slt(wa, a, b),
        Kind::Ite => choice::ite(wt, a, b, c),
        Kind::Umulw => wide_product(false, false, wt, wa, wb, a, b),
        Kind::Smulw => wide_product(true, true, wt, wa, wb, a, b),
        Kind::Sumulw => wide_product(true, false, wt, wa, wb, a, b),
        Kind::Load | Kind::Store => unreachable!(),
    }
}
