// What each kind asks of widths and parameters, and the kinds drawn.
ghost use Rattle.std.specs.Prelude.{◌≤◌};

use crate::draws::drawn;
use oracle::numbers::least;
use oracle::shapes::KINDS;

// The kind of record k: any for the last, and for those before it copy, not, and, or, xor, shl, lshr, rotl, extract, concat or zext.
pub fn drawn_kind(table: u64, k: u64) -> u64 {
    if k == 3 {
        return drawn(table, k, 0, KINDS);
    }
    let kind = drawn(table, k, 0, 11);
    if kind < 7 { kind } else { kind + 1 }
}

// The width that the second operand must have (0: any).
pub fn second_width(kind: u64, wa: u64) -> u64 {
    match kind {
        10 | 21..=23 => 0,
        _ => wa,
    }
}

// The parameter: up to 3 places, a bit of the first operand, or 0.
pub fn parameter(kind: u64, draw: u64, wa: u64) -> u64
    requires { 1 ≤ wa }
{
    match kind {
        5..=8 => draw % 4,
        9 => draw % wa,
        _ => 0,
    }
}

// The target's width.
pub fn target_width(kind: u64, draw: u64, wa: u64, wb: u64, p: u64) -> u64
    requires { (wa ≤ 32) × (wb ≤ 32) }
{
    match kind {
        9 => least(1 + draw % 6, wa - least(wa, p)),
        10 | 21..=23 => wa + wb,
        11 | 12 => wa + draw % 4,
        17..=19 => 1,
        _ => wa,
    }
}
