// The archive that C, C++ and Rust programs link: the calls of the library `rifflerleek`, each exported under its name with the same clauses.
#![tactic(auto)]

ghost use Rattle.std.specs.Prelude.{◌≡◌, []};
ghost use Rattle.checks.specs.Model.{lent};
ghost use Rattle.tables.specs.Known.{Demand2};
ghost use Rattle.tables.specs.Demand.{Demand3};
ghost use Rattle.steps.specs.States.{held};
ghost use Rattle.tables.specs.Run.{run_of, count_of};
ghost use Rattle.grammar.specs.Cut.{field_ends};
ghost use Rattle.texts.specs.Calls.{size_of, write_of, read_of};
ghost use Rattle.rifflerleek.specs.Host.{number_answer, count_answer, ends_answer, outcome, host_leaves, host_read};

use rifflerleek::Answer;

mod prune_exports; // prune_exports.rt: the records that marked rows rest on
mod reset_exports; // reset_exports.rt: which reset bits a conclusion rests on
mod settle_exports; // settle_exports.rt: clock after clock until it settles, and the ordering of two states
mod vector_exports; // vector_exports.rt: the calls on bare vectors

// Runs the stretch of records from first up to but not including last; `result` of the answer is last.
#[unsafe(no_mangle)]
pub extern "C" fn rifflerleek_run(
    width: &[u8],
    lock: &[u8],
    mask: &mut [u32],
    value: &mut [u32],
    words: &[u32],
    first: usize,
    last: usize,
) -> Answer
    ensures effect { let table = lent width.now lock.now mask.old value.old words.now in
        outcome result (held mask.new value.new) ≡ host_leaves (run_of table first last) }
    ensures demand2 { let table = lent width.now lock.now mask.old value.old words.now in
        (result.refusal ≡ 0 → Demand2 table first last (held mask.new value.new)) }
    ensures demand3 { let table = lent width.now lock.now mask.old value.old words.now in
        (result.refusal ≡ 0 → Demand3 table first last (held mask.new value.new)) }
{
    rifflerleek::rifflerleek_run(width, lock, mask, value, words, first, last)
}

// Counts the unknown bits u of a row: `result` of the answer is u, `second_result` is 2^u.
#[unsafe(no_mangle)]
pub extern "C" fn rifflerleek_count(
    width: &[u8],
    lock: &[u8],
    mask: &[u32],
    value: &[u32],
    row: usize,
) -> Answer
    ensures { result ≡ count_answer (count_of (lent width.now lock.now mask.now value.now []) row) }
{
    rifflerleek::rifflerleek_count(width, lock, mask, value, row)
}

// Counts the bytes of the table's text: `result` of the answer.
#[unsafe(no_mangle)]
pub extern "C" fn rifflerleek_size(
    width: &[u8],
    lock: &[u8],
    mask: &[u32],
    value: &[u32],
    words: &[u32],
) -> Answer
    ensures { let table = lent width.now lock.now mask.now value.now words.now in
        result ≡ number_answer (size_of table) }
{
    rifflerleek::rifflerleek_size(width, lock, mask, value, words)
}

// Writes the table's text into the lent buffer: `result` of the answer is its byte count.
#[unsafe(no_mangle)]
pub extern "C" fn rifflerleek_write(
    width: &[u8],
    lock: &[u8],
    mask: &[u32],
    value: &[u32],
    words: &[u32],
    out: &mut [u8],
) -> Answer
    ensures { let table = lent width.now lock.now mask.now value.now words.now in
        outcome result out.new ≡ host_leaves (write_of table out.old) }
{
    rifflerleek::rifflerleek_write(width, lock, mask, value, words, out)
}

// Reads a text into the lent slices: `result` of the answer is the number of rows, `second_result` that of records.
#[unsafe(no_mangle)]
pub extern "C" fn rifflerleek_read(
    text: &[u8],
    width: &mut [u8],
    lock: &mut [u8],
    mask: &mut [u32],
    value: &mut [u32],
    words: &mut [u32],
) -> Answer
    ensures { let table = lent width.old lock.old mask.old value.old words.old in
        let left = lent width.new lock.new mask.new value.new words.new in
        outcome result left ≡ host_read (read_of text.now table) }
{
    rifflerleek::rifflerleek_read(text, width, lock, mask, value, words)
}

// Where the field of a line lies in the text, both numbered from 1: from `result` of the answer up to but not including `second_result`. It never refuses.
#[unsafe(no_mangle)]
pub extern "C" fn rifflerleek_field(text: &[u8], line: usize, field: usize) -> Answer
    ensures { result ≡ ends_answer (field_ends text.now line field) }
{
    rifflerleek::rifflerleek_field(text, line, field)
}
