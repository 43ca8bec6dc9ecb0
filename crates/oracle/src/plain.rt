// Each kind without cells on plain numbers (01, "Points and plain runs"; 02, request 4), by the kind's number as shapes.rt has it.
ghost use Rattle.std.specs.Prelude.{◌^◌, ◌<◌, ◌≤◌};
ghost use Rattle.bits.specs.Limits.{width_limit};
ghost use Rattle.operations.specs.Limits.{parameter_limit};

use crate::numbers::{bit, least, power, times, truth};
use crate::shapes::Shape;

// The number of n bits whose bit k is bit min(k + p, w - 1) of a.
fn copied(n: u64, w: u64, p: u64, a: u64) -> u64
    requires { (n ≤ width_limit) × (1 ≤ w) × (w ≤ width_limit) × (p ≤ parameter_limit) }
{
    let mut r: u64 = 0;
    for k in 0..n {
        r |= bit(a, least(k + p, w - 1)) << k;
    }
    r
}

// The number whose bit (k + p) modulo w is bit k of a.
fn rotated(w: u64, p: u64, a: u64) -> u64
    requires { (1 ≤ w) × (w ≤ width_limit) × (p ≤ parameter_limit) }
{
    let mut r: u64 = 0;
    for k in 0..w {
        r |= bit(a, k) << ((k + p) % w);
    }
    r
}

// a once 2^w is taken from it where its top bit is 1, and then 2^w more, so that it is not negative.
fn signed(w: u64, a: u64) -> u64
    requires { (1 ≤ w) × (w ≤ width_limit) × (a < 4294967296) }
{
    if bit(a, w - 1) == 1 {
        return a;
    }
    a + power(w)
}

// a once 2^w is taken from it where its top bit is 1, modulo 2^32.
fn signed_word(w: u64, a: u64) -> u64
    requires { (w ≤ width_limit) × (a < 4294967296) }
    ensures { result < 4294967296 }
{
    let end = power(w);
    if 2 * a < end {
        return a;
    }
    a.wrapping_sub(end) % 4294967296
}

// The new number of the target, from the operands' numbers. Differences are taken modulo 2^64 and signed factors modulo 2^32: 2^wt divides both.
pub fn plain(s: Shape, a: u64, b: u64, c: u64) -> u64
    requires { (a < 2 ^ s.wa) × (b < 4294967296) }
{
    let kind = s.kind;
    let w = power(s.wa);
    let t = power(s.wt);
    match kind {
        0 | 11 => a,
        1 => w - 1 - a,
        2 => a & b,
        3 => a | b,
        4 => a ^ b,
        5 => times(a, power(s.p)) % w,
        6 => a / power(s.p),
        7 => copied(s.wa, s.wa, s.p, a),
        8 => rotated(s.wa, s.p, a),
        9 => a / power(s.p) % t,
        10 => times(a, power(s.wb)) + b,
        12 => copied(s.wt, s.wa, 0, a),
        13 => (a + b) % w,
        14 => a.wrapping_sub(b) % w,
        15 => 0u64.wrapping_sub(a) % w,
        16 => times(a, b) % w,
        17 => truth(a == b),
        18 => truth(a < b),
        19 => truth(signed(s.wa, a) < signed(s.wa, b)),
        21 => times(a, b) % t,
        22 => times(signed_word(s.wa, a), signed_word(s.wb, b)) % t,
        23 => times(signed_word(s.wa, a), b) % t,
        _ => if c == 1 { a } else { b },
    }
}
