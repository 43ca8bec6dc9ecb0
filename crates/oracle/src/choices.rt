// The choices of covered operands, and the bits that they give (01, "Abstract result"; 02, request 2), by plain enumeration.
ghost use Rattle.std.specs.Prelude.{◌^◌, ◌<◌, ◌≤◌};
ghost use Rattle.bits.specs.Limits.{width_limit};

use crate::numbers::{bit, power, word};
use crate::plain::plain;
use crate::shapes::{Shape, one_number};

// A row's mask and value.
#[derive(Clone, Copy, PartialEq, Eq)]
pub struct Row {
    pub mask: u32,
    pub value: u32,
}

// The bits that some choice makes 0, and those that some choice makes 1.
#[derive(Clone, Copy)]
pub struct Seen {
    pub zeros: u32,
    pub ones: u32,
}

// No choice.
pub fn nothing() -> Seen {
    Seen { zeros: 0, ones: 0 }
}

// The choices of both.
pub fn both(a: Seen, b: Seen) -> Seen {
    Seen {
        zeros: a.zeros | b.zeros,
        ones: a.ones | b.ones,
    }
}

// The bits of a number of width w.
pub fn bits_of(w: u64, x: u64) -> Seen
    requires { w ≤ width_limit }
{
    let r = word(x);
    Seen {
        zeros: word(power(w) - 1) ^ r,
        ones: r,
    }
}

// Whether a row of width w covers x: they agree at every known bit, one by one.
pub fn covers(w: u64, row: Row, x: u64) -> bool
    requires { w ≤ width_limit }
{
    let mask = row.mask as u64;
    let value = row.value as u64;
    (0..w).all(|k| bit(mask, k) == 1 || bit(value, k) == bit(x, k))
}

// What all numbers give that a row of width w covers.
pub fn over<F: Fn(u64) -> Seen>(w: u64, row: Row, given: F) -> Seen
    requires w_bound { w ≤ width_limit }
    requires callable { (x : _) → x < 2 ^ w → F.pre given x }
{
    let mut seen = nothing();
    for x in 0..power(w) {
        if covers(w, row, x) {
            seen = both(seen, given(x));
        }
    }
    seen
}

// All choices of the condition, with x and y for the operands.
fn of_condition(s: Shape, x: u64, y: u64, c: Row) -> Seen
    requires { (x < 2 ^ s.wa) × (y < 4294967296) }
{
    over(1, c, |z| bits_of(s.wt, plain(s, x, y, z)))
}

// All choices of the second operand and the condition, with x for the first operand.
fn of_second(s: Shape, x: u64, b: Row, c: Row) -> Seen
    requires { x < 2 ^ s.wa }
{
    over(s.wb, b, |y| of_condition(s, x, y, c))
}

// The same, or where `one` holds of one number for both operands.
fn of_rest(s: Shape, one: bool, x: u64, b: Row, c: Row) -> Seen
    requires { x < 2 ^ s.wa }
{
    if one {
        return of_condition(s, x, x, c);
    }
    of_second(s, x, b, c)
}

// All choices of the operands and the condition.
fn of_all(s: Shape, one: bool, a: Row, b: Row, c: Row) -> Seen {
    over(s.wa, a, |x| of_rest(s, one, x, b, c))
}

// A bit that is seen 0 and seen 1 is unknown.
pub fn row_of(seen: Seen) -> Row {
    let unknown = seen.zeros & seen.ones;
    Row {
        mask: unknown,
        value: seen.ones ^ unknown,
    }
}

// The target's row.
pub fn enumerated(s: Shape, a: Row, b: Row, c: Row) -> Row {
    row_of(of_all(s, false, a, b, c))
}

// The same where the words a and b name one row.
pub fn enumerated_twice(s: Shape, a: Row, c: Row) -> Row {
    row_of(of_all(s, one_number(s.kind), a, a, c))
}
