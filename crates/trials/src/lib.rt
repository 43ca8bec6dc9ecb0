// One table of four rows and one record: run, and compared.
#![tactic(auto)]

ghost use Rattle.std.specs.Prelude.{◌≡◌, length};

use oracle::choices::{Row, enumerated, enumerated_twice};
use oracle::numbers::{byte, word};
use oracle::shapes::{Shape, uses_condition, uses_second};
use tables::run;

pub mod counting; // counting.rt: tables tried and tables that disagree
pub mod examples; // examples.rt: worked examples

// The rows' masks and values: 0 and 1 the operands, 2 the condition, 3 the target.
#[derive(Clone, Copy, PartialEq, Eq)]
struct Rows {
    mask: [u32; 4],
    value: [u32; 4],
}

// The rows, one by one.
fn table(a: Row, b: Row, c: Row, t: Row) -> Rows {
    Rows {
        mask: [a.mask, b.mask, c.mask, t.mask],
        value: [a.value, b.value, c.value, t.value],
    }
}

// The rows' widths.
fn widths(s: Shape) -> [u8; 4]
    ensures { 4 ≡ length result }
{
    [byte(s.wa), byte(s.wb), 1, byte(s.wt)]
}

// The record, with the second operand's word and the sixth word as they are given.
fn record(s: Shape, second: u32, sixth: u32) -> [u32; 6]
    ensures { 6 ≡ length result }
{
    [word(s.kind), 3, 0, second, word(s.p), sixth]
}

// The sixth word: the condition's row, or 0.
fn sixth_word(kind: u64) -> u32 {
    if uses_condition(kind) { 2 } else { 0 }
}

// Whether run of one record makes the rows after of those before, and gives this answer: last, or the number and the place of a refusal.
fn makes(
    width: [u8; 4],
    words: [u32; 6],
    before: Rows,
    after: Rows,
    due: Result<usize, (u32, usize)>,
) -> bool {
    let lock = [0u8; 4];
    let mut rows = before;
    let answer = run(&width, &lock, &mut rows.mask, &mut rows.value, &words, 0, 1);
    answer.map_err(|r| (r.reason.number(), r.place)) == due && rows == after
}

// Whether run makes this result at the target, and the other rows stay. At the start bit 0 of the target is known where the result's is unknown, and
// unknown where the result's is known.
fn leaves(s: Shape, second: u32, a: Row, b: Row, c: Row, res: Row) -> bool {
    let start = Row {
        mask: 1 - res.mask % 2,
        value: 0,
    };
    let before = table(a, b, c, start);
    let after = table(a, b, c, res);
    let words = record(s, second, sixth_word(s.kind));
    makes(widths(s), words, before, after, Ok(1))
}

// Whether run and the enumeration agree where the operand words name two rows.
pub fn agrees(s: Shape, a: Row, b: Row, c: Row) -> bool {
    let result = enumerated(s, a, b, c);
    if uses_second(s.kind) {
        return leaves(s, 1, a, b, c, result);
    }
    leaves(s, 0, a, b, c, result)
}

// Whether they agree where both operand words name row 0. Row 1, which no word names, has the same vector.
pub fn agrees_twice(s: Shape, a: Row, c: Row) -> bool {
    leaves(s, 0, a, a, c, enumerated_twice(s, a, c))
}
