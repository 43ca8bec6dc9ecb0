// Operands that two vectors cover and that make a bit of their sum, difference or product 0, or 1 (02, request 7). The unknown bits become known one by one:
// as 0 where the bit can then still be what is sought, else as 1.
#![tactic(auto)]

ghost use Rattle.std.specs.Prelude.{◌≡◌, [], ◌∷◌, ◌≤◌, ◌<◌};
ghost use Rattle.vectors.specs.OutputBits.{output_bit};
ghost use Rattle.operations.specs.Kinds.{kind_of};
ghost use Rattle.operations.specs.Result.{result_of};
ghost use Rattle.witness_search.specs.Witness.{add_sub_mul, number_of, plain_of, Makes};
ghost use Rattle.witness_search.specs.Search.{rows_of, lowest_cleared, lowest_as, case_of, may_be, UnknownLeft, Asked, Sought, Narrower};

use arithmetic::Arithmetic;
use products::product_bit_unchecked;
use sums::{add, sub};
use vectors::{OutputBit, Vector, bit_of};

pub mod arithmetic; // arithmetic.rt: the kinds of which operands are sought

// Whether the kind is one of which operands are sought.
pub fn is_add_sub_mul(kind: u32) -> bool
    ensures { result ≡ add_sub_mul kind }
{
    Arithmetic::try_from(kind).is_ok()
}

// Two vectors of one width.
#[derive(Clone, Copy)]
pub struct Operands {
    pub a: Vector,
    pub b: Vector,
}

// Two plain operands.
#[derive(Clone, Copy)]
pub struct Pair {
    pub a: u32,
    pub b: u32,
}

// Bit k of the operation's result.
pub fn operation_bit(kind: Arithmetic, w: u32, o: Operands, k: u32) -> OutputBit
    requires { Asked (number_of kind) w k o }
    ensures { result ≡ output_bit (result_of (kind_of (number_of kind)) w 0 (rows_of w o)) k }
{
    match kind {
        Arithmetic::Add => bit_of(add(w, o.a, o.b), k),
        Arithmetic::Sub => bit_of(sub(w, o.a, o.b), k),
        Arithmetic::Mul => product_bit_unchecked(o.a, o.b, k),
    }
}

// The vector with its lowest unknown bit known as b.
fn lowest_as(x: Vector, b: u32) -> Vector
    requires { (1 ≤ x.mask) × (b < 2) }
    ensures { (result.mask ≡ lowest_cleared x.mask) × (result.value ≡ lowest_as x.mask x.value b) }
{
    Vector {
        mask: x.mask & (x.mask - 1),
        value: x.value | (b << u32::trailing_zeros(x.mask)),
    }
}

// The operands with one unknown bit known as b: the first vector's lowest, or the second's where the first has none.
fn case_of(o: Operands, b: u32) -> Operands
    requires { (b < 2) × UnknownLeft o }
    ensures { result ≡ case_of o b }
{
    if o.a.mask == 0 {
        let second = lowest_as(o.b, b);
        return Operands { a: o.a, b: second };
    }
    let first = lowest_as(o.a, b);
    Operands { a: first, b: o.b }
}

// Whether an output bit leaves d possible.
fn may_be(found: OutputBit, d: u32) -> bool
    ensures { result ≡ may_be found d }
{
    match found {
        OutputBit::Zero => d == 0,
        OutputBit::One => d == 1,
        OutputBit::Unknown => true,
    }
}

// One unknown bit less, with d still possible.
fn narrowed(kind: Arithmetic, w: u32, o: Operands, k: u32, d: u32) -> Operands
    requires { Sought (number_of kind) w k d o × UnknownLeft o }
    ensures { Narrower (number_of kind) w k d o result }
{
    let zero = case_of(o, 0);
    let one = case_of(o, 1);
    if may_be(operation_bit(kind, w, zero, k), d) {
        return zero;
    }
    one
}

// Two plain operands that make bit k of the operation's result d, where d is possible.
pub fn witness(kind: Arithmetic, w: u32, o: Operands, k: u32, d: u32) -> Pair
    requires { Sought (number_of kind) w k d o }
    ensures { Makes (plain_of (number_of kind) w) (rows_of w o) k d (result.a ∷ result.b ∷ []) }
{
    let mut at = o;
    while at.a.mask | at.b.mask != 0 {
        at = narrowed(kind, w, at, k, d);
    }
    Pair {
        a: at.a.value,
        b: at.b.value,
    }
}
