// What a line of a text tells, by its fields (01, "Text"; 02, request 11).
ghost use Rattle.std.specs.Prelude.{◌≡◌, [], ◌∷◌, length, drop};
ghost use Rattle.grammar.specs.Words.{tab};
ghost use Rattle.grammar.specs.Cut.{pieces};
ghost use Rattle.grammar.specs.Line.{row_of, record_in, line_of};
ghost use Rattle.letters.specs.Model.{edition_model};
ghost use Rattle.lines.specs.Model.{line_model, record_model, line_told};

use crate::cut::{count_parts, part};
use crate::records::{older_record, third_record};
use crate::words::{is_word, lock_of};
use grammar::TAB;
use letters::{Edition, is_older, vector};
use operations::{RECORD_WORDS, Record};

// A row line by lock, width, mask and value; a record line by its record; a line outside the grammar.
#[derive(Clone, Copy)]
pub enum Found {
    Row(u32, u32, u32, u32),
    Record(Record),
    Outside,
}

// `row`, `open` or `locked`, and letters.
fn row_line(e: Edition, lock: &[u8], letters: &[u8]) -> Found
    ensures { line_model result ≡ row_of (edition_model e) (lock.now ∷ letters.now ∷ []) }
{
    let Some(l) = lock_of(lock) else {
        return Found::Outside;
    };
    let Some(v) = vector(e, letters) else {
        return Found::Outside;
    };
    Found::Row(l, v.width, v.mask, v.value)
}

// The line of a record, or none.
fn line_of(r: Option<Record>) -> Found
    ensures { line_model result ≡ line_told (record_model r) }
{
    match r {
        Some(x) => Found::Record(x),
        None => Found::Outside,
    }
}

// `op`, the operation's name, t, a, b, p, and in edition 3 the sixth word: a line of `n` fields.
fn op_line(e: Edition, l: &[u8], n: usize) -> Found
    requires { n ≡ length (pieces tab l.now) }
    ensures { line_model result ≡ record_in (edition_model e) (drop 1 (pieces tab l.now)) }
{
    let name = part(l, 2, TAB);
    let t = part(l, 3, TAB);
    let a = part(l, 4, TAB);
    let b = part(l, 5, TAB);
    let p = part(l, 6, TAB);
    if is_older(e) {
        if n != RECORD_WORDS {
            return Found::Outside;
        }
        return line_of(older_record(name, t, a, b, p));
    }
    if n != RECORD_WORDS + 1 {
        return Found::Outside;
    }
    let c = part(l, 7, TAB);
    line_of(third_record(name, t, a, b, p, c))
}

// What a line without its LF tells.
pub fn line(e: Edition, l: &[u8]) -> Found
    ensures { line_model result ≡ line_of (edition_model e) (pieces tab l.now) }
{
    let n = count_parts(l, TAB);
    let head = part(l, 1, TAB);
    if is_word(head, b"row") {
        if n != 3 {
            return Found::Outside;
        }
        let lock = part(l, 2, TAB);
        let letters = part(l, 3, TAB);
        return row_line(e, lock, letters);
    }
    if is_word(head, b"op") {
        return op_line(e, l, n);
    }
    Found::Outside
}
