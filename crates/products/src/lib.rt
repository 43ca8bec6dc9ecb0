// One bit of the product of two vectors, and the product's vector (01, "Products"; document 002, section 7, algorithm 2).
// Inner functions take masks and values as words, which stand in registers (speed: docs/DECISIONS.md, A vector in one word).
#![tactic(auto)]

ghost use Rattle.std.specs.Prelude.{◌≡◌, [], ◌∷◌, ℕ, ◌*◌, ◌≤◌, ◌<◌, ◌^◌};
ghost use Rattle.std.specs.Int.Bits.{bit_and};
ghost use Rattle.bits.specs.Limits.{width_limit};
ghost use Rattle.bits.specs.Bit.{bit};
ghost use Rattle.bits.specs.Four.{reversed_words};
ghost use Rattle.vectors.specs.Row.{row, row_of, WellFormed};
ghost use Rattle.vectors.specs.Packed.{packed_row};
ghost use Rattle.operations.specs.Arithmetic.{op_mul};
ghost use Rattle.operations.specs.Result.{result_of, Ready};
ghost use Rattle.columns.specs.Formed.{Formed};
ghost use Rattle.columns.specs.Settled.{product_of, Marks};
ghost use Rattle.vectors.specs.OutputBits.{output_bit, output_mask};
ghost use Rattle.products.specs.Granted.{Granted};

use bits::{reverse_words, width_mask};
use columns::choices::{by_every_choice, without_lowest};
use columns::low::{below_cut, unknown_low};
use columns::witnesses::unknown_columns;
use columns::{known_high, known_low, product};
use factors::{extreme_factors, partners, settled_bit, with_pair};
use vectors::{OutputBit, Vector, bit_of};

mod column_sums; // column_sums.rt: column sums, held as i64
mod factors; // factors.rt: the factors at which the column sum is least and greatest

// Bit k of the product, with the operands' reversed words. Two pairs of column k unknown on both sides make the bit unknown; a lone one has its
// bits set first.
fn column_bit(ma: u32, va: u32, mb: u32, vb: u32, reverses: [u32; 4], k: u32) -> OutputBit
    requires { Granted ma va mb vb k × (reverses ≡ reversed_words ma va mb vb) }
    ensures { (w : ℕ) → k < w → WellFormed (row w ma va) → WellFormed (row w mb vb) → result ≡ output_bit (product_of w ma va mb vb) k }
{
    let pairs = ma & partners(reverses[2], k);
    if pairs == 0 {
        return settled_bit(extreme_factors(ma, va, mb, vb, reverses, k), k);
    }
    let i = pairs.trailing_zeros();
    let lone = 1u32 << i;
    if pairs != lone {
        return OutputBit::Unknown;
    }
    let x = extreme_factors(ma, va, mb, vb, reverses, k);
    let y = with_pair(x, i, k);
    settled_bit(y, k)
}

fn mask_bit(b: OutputBit) -> u32
    ensures { result ≡ output_mask b }
{
    match b {
        OutputBit::Zero | OutputBit::One => 0,
        OutputBit::Unknown => 1,
    }
}

// Column k alone where it is unknown, else nothing.
fn unknown_column(ma: u32, va: u32, mb: u32, vb: u32, reverses: [u32; 4], k: u32) -> u32
    requires { Granted ma va mb vb k × (reverses ≡ reversed_words ma va mb vb) }
    ensures { (w : ℕ) → k < w → Formed w ma va mb vb → result ≡ bit (product_of w ma va mb vb).mask k * 2 ^ k }
{
    mask_bit(column_bit(ma, va, mb, vb, reverses, k)) << k
}

// Of the columns in `unsettled` those that are unknown, each worked out by itself.
fn unknown_among(unsettled: u32, ma: u32, va: u32, mb: u32, vb: u32) -> u32
    requires { Marks (Granted ma va mb vb) unsettled }
    ensures { (w : ℕ) → Formed w ma va mb vb → unsettled < 2 ^ w → result ≡ bit_and unsettled (product_of w ma va mb vb).mask }
{
    let reverses = reverse_words([ma, va, mb, vb]);
    let mut found: u32 = 0;
    let mut rest = unsettled;
    while rest != 0 {
        let k = rest.trailing_zeros();
        found |= unknown_column(ma, va, mb, vb, reverses, k);
        rest &= rest - 1;
    }
    found
}

// The same, with the columns left out that are known above the bits in which the products differ.
fn unknown_left(unsettled: u32, ma: u32, va: u32, mb: u32, vb: u32) -> u32
    requires { Marks (Granted ma va mb vb) unsettled }
    ensures { (w : ℕ) → Formed w ma va mb vb → unsettled < 2 ^ w → result ≡ bit_and unsettled (product_of w ma va mb vb).mask }
{
    let left = unsettled & !known_high(ma, va, mb, vb);
    unknown_among(left, ma, va, mb, vb)
}

// The same. Every choice of the few unknown bits below the cut settles the columns below it, and shows some of the others to be unknown. Where no
// column below it is open they are not tried: so `unknown_left` is called at two places here, and stays a function of its own beside the rest.
fn unknown_open(unsettled: u32, ma: u32, va: u32, mb: u32, vb: u32) -> u32
    requires { Marks (Granted ma va mb vb) unsettled }
    ensures { (w : ℕ) → Formed w ma va mb vb → unsettled < 2 ^ w → result ≡ bit_and unsettled (product_of w ma va mb vb).mask }
{
    let low = below_cut(ma, mb);
    if unsettled & low == 0 {
        return unknown_left(unsettled, ma, va, mb, vb);
    }
    let found = unknown_low(low, ma, va, mb, vb);
    let rest = unsettled & !(found | low);
    if rest == 0 {
        return unsettled & found;
    }
    (unsettled & found) | unknown_left(rest, ma, va, mb, vb)
}

// The columns below the width that are unknown. Few unknown bits are tried in every choice; else the columns that plain products do not settle
// are worked out.
fn unknown_below(w: u32, ma: u32, va: u32, mb: u32, vb: u32) -> u32
    requires { (1 ≤ w) × Formed w ma va mb vb }
    ensures { (k : ℕ) → k < w → bit result k ≡ bit (product_of w ma va mb vb).mask k }
{
    if without_lowest((ma as u64) | ((mb as u64) << 32)) == 0 {
        return by_every_choice(ma, va, mb, vb);
    }
    let seen = unknown_columns(ma, va, mb, vb);
    let unsettled = !(seen | known_low(ma, va, mb, vb)) & width_mask(w);
    if unsettled == 0 {
        return seen;
    }
    seen | unknown_open(unsettled, ma, va, mb, vb)
}

// The product's vector, packed: where no two choices disagree, the bit is that of the values' product. It is called at two places, and so stays a function
// of its own: what calls it is small where it is inlined.
fn packed_unknown(w: u32, ma: u32, va: u32, mb: u32, vb: u32) -> u64
    requires { (1 ≤ w) × Formed w ma va mb vb }
    ensures { packed_row w result ≡ product_of w ma va mb vb }
{
    let ones = width_mask(w);
    let unknown = unknown_below(w, ma, va, mb, vb);
    u64::from(Vector {
        mask: unknown & ones,
        value: product(va, vb) & (!unknown & ones),
    })
}

// The same, with known operands told apart.
fn packed_product(w: u32, ma: u32, va: u32, mb: u32, vb: u32) -> u64
    requires { (1 ≤ w) × Formed w ma va mb vb }
    ensures { packed_row w result ≡ product_of w ma va mb vb }
{
    if ma | mb == 0 {
        return u64::from(Vector {
            mask: 0,
            value: product(va, vb) & width_mask(w),
        });
    }
    packed_unknown(w, ma, va, mb, vb)
}

// The product's vector.
pub fn mul(w: u32, a: Vector, b: Vector) -> Vector
    requires { (w ≤ width_limit) × Ready op_mul w 0 (row_of w a ∷ row_of w b ∷ []) }
    ensures { row_of w result ≡ result_of op_mul w 0 (row_of w a ∷ row_of w b ∷ []) }
{
    Vector::from(packed_product(w, a.mask, a.value, b.mask, b.value))
}

// The same, for a caller that knows some bit to be unknown.
pub fn mul_unknown(w: u32, a: Vector, b: Vector) -> Vector
    requires { (w ≤ width_limit) × Ready op_mul w 0 (row_of w a ∷ row_of w b ∷ []) }
    ensures { row_of w result ≡ result_of op_mul w 0 (row_of w a ∷ row_of w b ∷ []) }
{
    Vector::from(packed_unknown(w, a.mask, a.value, b.mask, b.value))
}

// Bit k of the product, for a caller that has checked: unknown where column k is, else that of the values' product. No width is asked for: the
// answer is right at every width above k at which the vectors are well formed.
pub fn product_bit_unchecked(a: Vector, b: Vector, k: u32) -> OutputBit
    requires { Granted a.mask a.value b.mask b.value k }
    ensures { (w : ℕ) → k < w → WellFormed (row_of w a) → WellFormed (row_of w b) → result ≡ output_bit (result_of op_mul w 0 (row_of w a ∷ row_of w b ∷ [])) k }
{
    let unknown = unknown_left(1u32 << k, a.mask, a.value, b.mask, b.value);
    let planes = Vector {
        mask: unknown,
        value: product(a.value, b.value),
    };
    bit_of(planes, k)
}
