// copy, shl, lshr, ashr, rotl, extract, concat, zext, sext: mask and value move alike.
// A plane is either word: it moves as an operand's number does, by the kind's plain number.
ghost use Rattle.std.specs.Prelude.{◌≡◌, ℕ, ◌^◌, ◌<◌, ◌≤◌, Bool, [], ◌∷◌};
ghost use Rattle.bits.specs.Limits.{width_limit};
ghost use Rattle.vectors.specs.Row.{row_of};
ghost use Rattle.operations.specs.Encoding.{sign_place};
ghost use Rattle.operations.specs.Wide.{counted_as};
ghost use Rattle.operations.specs.Result.{result_of, Ready};
ghost use Rattle.operations.specs.Bitwise.{op_copy};
ghost use Rattle.operations.specs.Moves.{op_shl, op_lshr, op_ashr, op_rotl, op_extract, op_concat, op_zext, op_sext};

use bits::width_mask;
use vectors::Vector;

pub fn copy(w: u32, a: Vector) -> Vector
    requires { (w ≤ width_limit) × Ready op_copy w 0 (row_of w a ∷ []) }
    ensures { row_of w result ≡ result_of op_copy w 0 (row_of w a ∷ []) }
{
    a
}

fn shl_plane(w: u32, x: u32, p: u32) -> u32
    requires { (1 ≤ w) × (w ≤ width_limit) × (p < 32) }
    ensures { result ≡ op_shl.plain w (w ∷ []) p (x ∷ []) }
{
    (x << p) & width_mask(w)
}

pub fn shl(w: u32, a: Vector, p: u32) -> Vector
    requires { (w ≤ width_limit) × Ready op_shl w p (row_of w a ∷ []) }
    ensures { row_of w result ≡ result_of op_shl w p (row_of w a ∷ []) }
{
    Vector {
        mask: shl_plane(w, a.mask, p),
        value: shl_plane(w, a.value, p),
    }
}

pub fn lshr(w: u32, a: Vector, p: u32) -> Vector
    requires { (w ≤ width_limit) × Ready op_lshr w p (row_of w a ∷ []) }
    ensures { row_of w result ≡ result_of op_lshr w p (row_of w a ∷ []) }
{
    Vector {
        mask: a.mask >> p,
        value: a.value >> p,
    }
}

// A number of w bits extended to wt bits: t is the place of its sign, 2^(w-1), or 0 where it has none. The sign is turned and its place taken away, with no
// branch on it.
pub fn extended(wt: u32, t: u32, x: u32) -> u32
    requires { (1 ≤ wt) × (wt ≤ width_limit) }
    ensures { (signed : Bool) (w : ℕ) → t ≡ sign_place signed w → 1 ≤ w → w ≤ wt → x < 2 ^ w → result ≡ counted_as signed wt w x }
{
    std::num::wrapping_sub_u32(x ^ t, t) & width_mask(wt)
}

// Copies of the top bit of x, which is bit wa - 1, above it.
fn sext_plane(wt: u32, wa: u32, x: u32) -> u32
    requires { (1 ≤ wa) × (wa ≤ wt) × (wt ≤ width_limit) × (x < 2 ^ wa) }
    ensures { result ≡ op_sext.plain wt (wa ∷ []) 0 (x ∷ []) }
{
    extended(wt, 1u32 << (wa - 1), x)
}

// A shift by w or more gives copies of the top bit, as a shift by w - 1 does.
fn ashr_plane(w: u32, x: u32, p: u32) -> u32
    requires { (1 ≤ w) × (w ≤ width_limit) × (x < 2 ^ w) }
    ensures { result ≡ op_ashr.plain w (w ∷ []) p (x ∷ []) }
{
    if p < w {
        return sext_plane(w, w - p, x >> p);
    }
    sext_plane(w, 1, x >> (w - 1))
}

pub fn ashr(w: u32, a: Vector, p: u32) -> Vector
    requires { (w ≤ width_limit) × Ready op_ashr w p (row_of w a ∷ []) }
    ensures { row_of w result ≡ result_of op_ashr w p (row_of w a ∷ []) }
{
    Vector {
        mask: ashr_plane(w, a.mask, p),
        value: ashr_plane(w, a.value, p),
    }
}

// The bits that leave at the top come in at the bottom. w - q may be 32, so that shift is made in two.
fn rotl_plane(w: u32, x: u32, p: u32) -> u32
    requires { (1 ≤ w) × (w ≤ width_limit) × (x < 2 ^ w) }
    ensures { result ≡ op_rotl.plain w (w ∷ []) p (x ∷ []) }
{
    let q = p % w;
    ((x << q) | (x >> (w - 1 - q) >> 1)) & width_mask(w)
}

pub fn rotl(w: u32, a: Vector, p: u32) -> Vector
    requires { (w ≤ width_limit) × Ready op_rotl w p (row_of w a ∷ []) }
    ensures { row_of w result ≡ result_of op_rotl w p (row_of w a ∷ []) }
{
    Vector {
        mask: rotl_plane(w, a.mask, p),
        value: rotl_plane(w, a.value, p),
    }
}

fn extract_plane(wt: u32, wa: u32, x: u32, p: u32) -> u32
    requires { (1 ≤ wt) × (wt ≤ width_limit) × (p < 32) }
    ensures { result ≡ op_extract.plain wt (wa ∷ []) p (x ∷ []) }
{
    (x >> p) & width_mask(wt)
}

pub fn extract(wt: u32, wa: u32, a: Vector, p: u32) -> Vector
    requires { (wa ≤ width_limit) × Ready op_extract wt p (row_of wa a ∷ []) }
    ensures { row_of wt result ≡ result_of op_extract wt p (row_of wa a ∷ []) }
{
    Vector {
        mask: extract_plane(wt, wa, a.mask, p),
        value: extract_plane(wt, wa, a.value, p),
    }
}

// a is the high part, b the low one.
pub fn concat(wt: u32, wa: u32, wb: u32, a: Vector, b: Vector) -> Vector
    requires { (wt ≤ width_limit) × Ready op_concat wt 0 (row_of wa a ∷ row_of wb b ∷ []) }
    ensures { row_of wt result ≡ result_of op_concat wt 0 (row_of wa a ∷ row_of wb b ∷ []) }
{
    Vector {
        mask: (a.mask << wb) | b.mask,
        value: (a.value << wb) | b.value,
    }
}

pub fn zext(wt: u32, wa: u32, a: Vector) -> Vector
    requires { (wt ≤ width_limit) × Ready op_zext wt 0 (row_of wa a ∷ []) }
    ensures { row_of wt result ≡ result_of op_zext wt 0 (row_of wa a ∷ []) }
{
    a
}

pub fn sext(wt: u32, wa: u32, a: Vector) -> Vector
    requires { (wt ≤ width_limit) × Ready op_sext wt 0 (row_of wa a ∷ []) }
    ensures { row_of wt result ≡ result_of op_sext wt 0 (row_of wa a ∷ []) }
{
    Vector {
        mask: sext_plane(wt, wa, a.mask),
        value: sext_plane(wt, wa, a.value),
    }
}
