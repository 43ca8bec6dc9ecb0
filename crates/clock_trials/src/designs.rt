// The tables by their numbers: the kinds of both records, the rows that they name, the pairs, and the start.
ghost use Rattle.std.specs.Prelude.{◌≡◌};

use crate::records::{Record, with_row};
use crate::{Pairs, Question};
use memory_trials::row_vectors::{vector, vectors};
use oracle::shapes::{LOAD, STORE, uses_condition, uses_second};
use reset_trials::rows::Rows;

// How many designs there are: two of ten kinds, and one of five choices of the rows named with one of 17 lists of pairs.
pub const DESIGNS: u64 = 10 * 10 * 5 * 17;

// How many starts of a design are tried: four rows of width 1, or two of width 2, have so many.
pub const STARTS: u64 = 81;

// A kind: copy, not, and, or, xor, add, sub, load, store, and ite at width 1, mul at width 2.
fn kind(w: u64, n: u64) -> u64 {
    match n % 10 {
        0 => 0,
        1 => 1,
        2 => 2,
        3 => 3,
        4 => 4,
        5 => 13,
        6 => 14,
        7 => LOAD,
        8 => STORE,
        _ => if w == 1 { 20 } else { 16 },
    }
}

// The record of these words.
fn words(kind: u64, t: u64, a: u64, b: u64, p: u64, c: u64) -> Record {
    Record {
        kind,
        t,
        a,
        b,
        p,
        c,
    }
}

// The rows that both records name, as digits: t, a and b of the first, then of the second. They read rows that are written before, afterwards or by themselves,
// and name one row twice.
fn named(n: u64) -> u64 {
    match n % 5 {
        0 => 302331,
        1 => 302231,
        2 => 210322,
        3 => 330231,
        _ => 221301,
    }
}

// The record of a kind on the rows that are the last three digits of a number. A condition is row 2, and a load's cells are row b and the one after it.
fn record(kind: u64, digits: u64) -> Record {
    let t = digits / 100 % 10;
    let a = digits / 10 % 10;
    let b = digits % 10;
    if kind == LOAD {
        return words(kind, t, a, 0, 2, b);
    }
    if kind == STORE {
        return words(kind, 0, a, b, 2, 2);
    }
    if uses_condition(kind) {
        return words(kind, t, a, b, 0, 2);
    }
    if uses_second(kind) {
        return words(kind, t, a, b, 0, 0);
    }
    words(kind, t, a, 0, 0, 0)
}

// The pairs, as digits: how many state rows and next rows there are, then both of each pair. Next rows are written or an input, the other state row, the
// state row itself, or one for both. The last six are refused: a state row named twice, locked or written, written, outside the table, a next row outside,
// lists of unequal length.
fn pairs(n: u64) -> Pairs {
    let digits = match n % 17 {
        0 => 220312,
        1 => 221302,
        2 => 220110,
        3 => 220310,
        4 => 221301,
        5 => 220013,
        6 => 220313,
        7 => 221201,
        8 => 110303,
        9 => 111212,
        10 => 0,
        11 => 220302,
        12 => 112222,
        13 => 113131,
        14 => 114040,
        15 => 110404,
        _ => 210312,
    };
    Pairs {
        count: digits / 100000,
        nexts: digits / 10000 % 10,
        refused: n % 17 > 10,
        s0: digits / 1000 % 10,
        n0: digits / 100 % 10,
        s1: digits / 10 % 10,
        n1: digits % 10,
    }
}

// The rows at the start: the digits of n, by their vectors. At width 2 the rows 2 and 3 have any.
fn start(w: u64, design: u64, n: u64) -> Rows {
    let v = vectors(w);
    let none = Rows { mask: 0, value: 0 };
    let rows = with_row(none, 0, vector(n % v));
    let rows = with_row(rows, 1, vector(n / v % v));
    let rest = if w == 1 {
        n / 9
    } else {
        n % 4096 * 5 + design % 65536 * 7
    };
    let rows = with_row(rows, 2, vector(rest % v));
    with_row(rows, 3, vector(rest / v % v))
}

// Table n of a design.
pub fn question(w: u64, design: u64, n: u64) -> Question
    ensures { result.w ≡ w }
{
    let names = named(design / 100);
    Question {
        w,
        rows: start(w, design, n),
        first: record(kind(w, design), names / 1000),
        second: record(kind(w, design / 10), names),
        pairs: pairs(design / 500),
    }
}
