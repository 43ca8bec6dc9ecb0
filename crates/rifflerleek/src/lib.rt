// The library for C, C++ and Rust programs: the public calls as they are exported (01, "Calls"). Crate `rifflerleek_c` makes the archive of them.
#![tactic(auto)]

ghost use Rattle.std.specs.Prelude.{◌≡◌, []};
ghost use Rattle.checks.specs.Model.{answer_model, lent, reason_number};
ghost use Rattle.tables.specs.Known.{Demand2};
ghost use Rattle.tables.specs.Demand.{Demand3};
ghost use Rattle.steps.specs.States.{held};
ghost use Rattle.tables.specs.Run.{run_of, count_of};
ghost use Rattle.grammar.specs.Cut.{field_ends};
ghost use Rattle.texts.specs.Calls.{size_of, write_of, read_of};
ghost use Rattle.rifflerleek.specs.Host.{host_result, host_refusal, number_answer, count_answer, ends_answer, outcome, host_leaves, host_read};

use checks::refusals::Refusal;
use checks::table::Table;
use grammar::{LF, TAB};
use lines::cut::{part, start_of};

mod prune_exports; // prune_exports.rt: the records that marked rows rest on
mod reset_exports; // reset_exports.rt: which reset bits a conclusion rests on
mod settle_exports; // settle_exports.rt: clock after clock until it settles, and the ordering of two states
mod vector_exports; // vector_exports.rt: the calls on bare vectors

pub use prune_exports::rifflerleek_prune;
pub use reset_exports::rifflerleek_reset_bits;
pub use settle_exports::{rifflerleek_compare_states, rifflerleek_settle};
pub use vector_exports::{
    FourNumbers, rifflerleek_product_bit, rifflerleek_range, rifflerleek_witnesses,
};

// What a call answers that gives at most two numbers: refusal 0 and the results, or the refusal's number and its place.
#[repr(C)]
#[derive(Clone, Copy)]
pub struct Answer {
    pub refusal: u32,
    pub place: usize,
    pub result: usize,
    pub second_result: u64,
}

// The number in place of a refusal where there is none.
pub const DONE: u32 = 0;

// The number of an output bit that is unknown (X).
pub const UNKNOWN_BIT: usize = 2;

// How a state stands to another.
pub const ORDER_EQUAL: usize = 0;

pub const ORDER_INSIDE: usize = 1;

pub const ORDER_AROUND: usize = 2;

pub const ORDER_NONE: usize = 3;

// A result of two numbers.
fn done(res: usize, second: u64) -> Answer
    ensures { result ≡ host_result res second }
{
    Answer {
        refusal: DONE,
        place: 0,
        result: res,
        second_result: second,
    }
}

// A refusal.
fn refused(why: Refusal) -> Answer
    ensures { result ≡ host_refusal (reason_number why.reason) why.place }
{
    Answer {
        refusal: why.reason.number(),
        place: why.place,
        result: 0,
        second_result: 0,
    }
}

// A result of one number, or a refusal.
impl From<Result<usize, Refusal>> for Answer {
    ghost from_gives = { λ found told. told ≡ number_answer (answer_model found) };

    fn from(found: Result<usize, Refusal>) -> Answer {
        match found {
            Ok(n) => done(n, 0),
            Err(r) => refused(r),
        }
    }
}

// Runs the stretch of records from first up to but not including last; `result` of the answer is last.
pub fn rifflerleek_run(
    width: &[u8],
    lock: &[u8],
    mask: &mut [u32],
    value: &mut [u32],
    words: &[u32],
    first: usize,
    last: usize,
) -> Answer
    ensures effect { let table = lent width.now lock.now mask.old value.old words.now in
        outcome result (held mask.new value.new) ≡ host_leaves (run_of table first last) }
    ensures demand2 { let table = lent width.now lock.now mask.old value.old words.now in
        (result.refusal ≡ 0 → Demand2 table first last (held mask.new value.new)) }
    ensures demand3 { let table = lent width.now lock.now mask.old value.old words.now in
        (result.refusal ≡ 0 → Demand3 table first last (held mask.new value.new)) }
{
    Answer::from(tables::run(width, lock, mask, value, words, first, last))
}

// Counts the unknown bits u of a row: `result` of the answer is u, `second_result` is 2^u.
pub fn rifflerleek_count(
    width: &[u8],
    lock: &[u8],
    mask: &[u32],
    value: &[u32],
    row: usize,
) -> Answer
    ensures { result ≡ count_answer (count_of (lent width.now lock.now mask.now value.now []) row) }
{
    let table = Table {
        width,
        lock,
        mask,
        value,
        words: &[],
    };
    match tables::count(table, row) {
        Ok(c) => done(c.unknown as usize, c.choices),
        Err(r) => refused(r),
    }
}

// Counts the bytes of the table's text: `result` of the answer.
pub fn rifflerleek_size(
    width: &[u8],
    lock: &[u8],
    mask: &[u32],
    value: &[u32],
    words: &[u32],
) -> Answer
    ensures { let table = lent width.now lock.now mask.now value.now words.now in
        result ≡ number_answer (size_of table) }
{
    let table = Table {
        width,
        lock,
        mask,
        value,
        words,
    };
    Answer::from(texts::size(table))
}

// Writes the table's text into the lent buffer: `result` of the answer is its byte count.
pub fn rifflerleek_write(
    width: &[u8],
    lock: &[u8],
    mask: &[u32],
    value: &[u32],
    words: &[u32],
    out: &mut [u8],
) -> Answer
    ensures { let table = lent width.now lock.now mask.now value.now words.now in
        outcome result out.new ≡ host_leaves (write_of table out.old) }
{
    let table = Table {
        width,
        lock,
        mask,
        value,
        words,
    };
    Answer::from(texts::write(table, out))
}

// Reads a text into the lent slices: `result` of the answer is the number of rows, `second_result` that of records.
pub fn rifflerleek_read(
    text: &[u8],
    width: &mut [u8],
    lock: &mut [u8],
    mask: &mut [u32],
    value: &mut [u32],
    words: &mut [u32],
) -> Answer
    ensures { let table = lent width.old lock.old mask.old value.old words.old in
        let left = lent width.new lock.new mask.new value.new words.new in
        outcome result left ≡ host_read (read_of text.now table) }
{
    match texts::read(text, width, lock, mask, value, words) {
        Ok(found) => done(found.rows, found.records as u64),
        Err(r) => refused(r),
    }
}

// Where the field of a line lies in the text, both numbered from 1: from `result` of the answer up to but not including `second_result`. It never refuses.
pub fn rifflerleek_field(text: &[u8], line: usize, field: usize) -> Answer
    ensures { result ≡ ends_answer (field_ends text.now line field) }
{
    let l = part(text, line, LF);
    let start = start_of(text, line, LF) + start_of(l, field, TAB);
    let found = texts::field(text, line, field);
    let end = start + found.len();
    done(start, end as u64)
}
