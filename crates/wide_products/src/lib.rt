// Products as wide as both operands (02, request 4): one kernel over two signs.
// An operand is extended to the product's width and multiplied there. A sign that is unknown is taken apart: as 0 and as 1.
#![tactic(auto)]

ghost use Rattle.std.specs.Prelude.{◌≡◌, [], ◌∷◌, ℕ, ◌/◌, ◌%◌, ◌^◌, ◌≤◌};
ghost use Rattle.std.specs.Int.Bits.{bit_and};
ghost use Rattle.bits.specs.Limits.{width_limit};
ghost use Rattle.vectors.specs.Row.{row_of};
ghost use Rattle.vectors.specs.Packed.{packed_row};
ghost use Rattle.vectors.specs.Best.{best};
ghost use Rattle.vectors.specs.Hull.{join};
ghost use Rattle.operations.specs.Encoding.{sign_place};
ghost use Rattle.operations.specs.Wide.{wide_number};
ghost use Rattle.wide_products.specs.Apart.{Factor, Operand, by_operand, multiplied};

use logic::movement::extended;
use products::{mul, mul_unknown};
use vectors::Vector;

// The place of the sign of an operand of width w, or 0 where it is not signed.
fn sign_place(signed: bool, w: u32) -> u32
    requires { (1 ≤ w) × (w ≤ width_limit) }
    ensures { result ≡ sign_place signed w }
{
    if signed {
        return 1u32 << (w - 1);
    }
    0
}

// Known where both are known and equal.
fn joined(x: Vector, y: Vector) -> Vector
    ensures { (w : ℕ) → row_of w result ≡ join (row_of w x) (row_of w y) }
{
    Vector {
        mask: x.mask | y.mask | (x.value ^ y.value),
        value: x.value & y.value,
    }
}

// The product, packed, of two operands where a sign is unknown: two products, or four where both signs are. s and t are the places of the signs, y is the
// number that the second value counts as, and a is that of the first with its mask, packed, so that registers hold all (speed:
// docs/DECISIONS.md, A vector in one word).
fn by_signs(wt: u32, s: u32, a: u64, t: u32, mb: u32, y: u32) -> u64
    requires { (wt ≤ width_limit) × Operand wt s (a % 2 ^ 32) (a / 2 ^ 32) × Operand wt t mb y × (bit_and (a % 2 ^ 32) s ≡ 0 → bit_and mb t ≡ 0 → ⊥) }
    ensures { (A : Operand wt s (a % 2 ^ 32) (a / 2 ^ 32)) (B : Operand wt t mb y) → packed_row wt result ≡ by_operand A (λ p. by_operand B (multiplied wt p)) }
{
    let first = Vector::from(a);
    // a0 and b0 are the operands with an unknown sign taken as 0, a1 and b1 those with it taken as 1.
    if first.mask & s == 0 {
        let n = mb ^ t;
        let y1 = extended(wt, t, y | t);
        let b0 = Vector { mask: n, value: y };
        let b1 = Vector { mask: n, value: y1 };
        return u64::from(joined(mul(wt, first, b0), mul(wt, first, b1)));
    }
    let m = first.mask ^ s;
    let x1 = extended(wt, s, first.value | s);
    let a0 = Vector {
        mask: m,
        value: first.value,
    };
    let a1 = Vector { mask: m, value: x1 };
    if mb & t == 0 {
        let b = Vector { mask: mb, value: y };
        return u64::from(joined(mul(wt, a0, b), mul(wt, a1, b)));
    }
    let n = mb ^ t;
    let y1 = extended(wt, t, y | t);
    let b0 = Vector { mask: n, value: y };
    let b1 = Vector { mask: n, value: y1 };
    let p = joined(mul(wt, a0, b0), mul(wt, a0, b1));
    let q = joined(mul(wt, a1, b0), mul(wt, a1, b1));
    u64::from(joined(p, q))
}

// The product of two vectors of widths wa and wb at width wt, each signed or not. Known operands have no unknown sign. `by_signs` is called at two places, and
// so stays a function of its own.
pub fn wide_product(sa: bool, sb: bool, wt: u32, wa: u32, wb: u32, a: Vector, b: Vector) -> Vector
    requires { (wt ≤ width_limit) × Factor wt (row_of wa a) × Factor wt (row_of wb b) }
    ensures { row_of wt result ≡ best wt (wide_number sa sb wt (wa ∷ wb ∷ [])) (row_of wa a ∷ row_of wb b ∷ []) }
{
    let s = sign_place(sa, wa);
    let t = sign_place(sb, wb);
    let x = extended(wt, s, a.value);
    let y = extended(wt, t, b.value);
    let first = Vector {
        mask: a.mask,
        value: x,
    };
    let second = Vector {
        mask: b.mask,
        value: y,
    };
    if a.mask | b.mask == 0 {
        return mul(wt, first, second);
    }
    let packed = u64::from(first);
    if a.mask & s != 0 {
        return Vector::from(by_signs(wt, s, packed, t, b.mask, y));
    }
    if b.mask & t != 0 {
        return Vector::from(by_signs(wt, s, packed, t, b.mask, y));
    }
    mul_unknown(wt, first, second)
}
