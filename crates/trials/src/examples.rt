// The unstarred examples that need no text (01, "Worked examples"; 02, requests 2, 4 and 11).
use crate::counting::{Tally, each, joined, one};
use crate::{Rows, makes, table};
use oracle::choices::Row;
use oracle::numbers::{byte, word};
use tables::run;

// A row's mask and value.
fn row(mask: u32, value: u32) -> Row {
    Row { mask, value }
}

// A first operand and a target, and zeros.
fn operand_and_target(a: Row, t: Row) -> Rows {
    let zero = row(0, 0);
    table(a, zero, zero, t)
}

// Whether run of a record of one width whose operand words name row 0, which is a, makes the target's row end of start, and gives this answer.
fn gives(
    kind: u64,
    w: u64,
    p: u64,
    a: Row,
    start: Row,
    end: Row,
    due: Result<usize, (u32, usize)>,
) -> Tally {
    let width = [byte(w), 1, 1, byte(w)];
    let words = [word(kind), 3, 0, 0, word(p), 0];
    let before = operand_and_target(a, start);
    let after = operand_and_target(a, end);
    one(makes(width, words, before, after, due))
}

// rotl 0X1 by 4 = X10.
fn rotl_by_four() -> Tally {
    gives(
        8,
        3,
        4,
        row(0b010, 0b001),
        row(0, 0),
        row(0b100, 0b010),
        Ok(1),
    )
}

// ashr X0 by 31 = XX.
fn ashr_by_most() -> Tally {
    gives(7, 2, 31, row(0b10, 0b00), row(0, 0), row(0b11, 0b00), Ok(1))
}

// Width 3 and this parameter: refused with this number, and the rows stay.
fn refused(kind: u64, p: u64, number: u32) -> Tally {
    let target = row(0b100, 0b010);
    gives(
        kind,
        3,
        p,
        row(0b010, 0b001),
        target,
        target,
        Err((number, 0)),
    )
}

// Parameter 32 for each shift, rotation and extract: refusal 8.
fn parameters_over() -> Tally {
    each(5, |n| refused(5 + n, 32, 8))
}

// xor of a row X with itself = 0, and sub likewise: both operands are one number (02, request 2).
fn with_itself(kind: u64) -> Tally {
    gives(kind, 1, 0, row(1, 0), row(1, 0), row(0, 0), Ok(1))
}

// ite of X and 1, and of 0 and X, with the row X also as its condition = X: the condition is chosen independently. As one number with a row it would give 1,
// and 0.
fn with_its_condition(a: Row, b: Row, condition: u32) -> Tally {
    let words = [20, 3, 0, 1, 0, condition];
    let before = table(a, b, row(0, 0), row(0, 0));
    let after = table(a, b, row(0, 0), row(1, 0));
    one(makes([1; 4], words, before, after, Ok(1)))
}

// ite with a parameter: refusal 8, before that of its widths.
fn with_parameter() -> Tally {
    refused(20, 2, 8)
}

// A load from row 0 on, of a table of four rows: refusal 7 past the table, also where n is near 2^32; 8 without a cell; 9 with cells of the widths 3, 1 and 1. A
// store with a target word: refusal 8.
fn memories_refused() -> Tally {
    let span = joined(refused(24, 5, 7), refused(24, 4294967295, 7));
    joined(
        joined(refused(24, 0, 8), refused(24, 3, 9)),
        joined(span, refused(25, 1, 8)),
    )
}

// A wide product with a parameter: refusal 8. With a target as wide as one operand alone: refusal 9.
fn wide_refused(kind: u64) -> Tally {
    joined(refused(kind, 1, 8), refused(kind, 0, 9))
}

// The first kind that is unknown: refusal 6.
fn kind_over() -> Tally {
    refused(26, 0, 6)
}

// 256 rows accepted.
fn most_rows() -> Tally {
    let width = [1u8; 256];
    let lock = [0u8; 256];
    let mut mask = [1u32; 256];
    let mut value = [0u32; 256];
    let words = [0u32, 255, 0, 0, 0, 0];
    let answer = run(&width, &lock, &mut mask, &mut value, &words, 0, 1);
    one(answer == Ok(1))
}

// The examples tried, and those that disagree.
pub fn examples() -> Tally {
    let mut tally = joined(rotl_by_four(), ashr_by_most());
    tally = joined(tally, parameters_over());
    tally = joined(tally, joined(with_itself(4), with_itself(14)));
    tally = joined(tally, with_its_condition(row(1, 0), row(0, 1), 0));
    tally = joined(tally, with_its_condition(row(0, 0), row(1, 0), 1));
    tally = joined(tally, wide_refused(21));
    tally = joined(tally, wide_refused(22));
    tally = joined(tally, wide_refused(23));
    tally = joined(tally, with_parameter());
    tally = joined(tally, memories_refused());
    tally = joined(tally, kind_over());
    joined(tally, most_rows())
}
