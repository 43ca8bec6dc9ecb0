// The text of a table: size, write, read and field (01, "Calls" and "Text"; 02, request 11).
#![tactic(auto)]

ghost use Rattle.std.specs.Prelude.{◌≡◌, Err};
ghost use Rattle.checks.specs.Model.{answer_model, in_table, lent};
ghost use Rattle.grammar.specs.Cut.{field_of};
ghost use Rattle.texts.specs.Calls.{size_of, write_of, read_of};
ghost use Rattle.lines.specs.Model.{lies};
ghost use Rattle.texts.specs.Model.{write_left, read_left};

use checks::refusals::{Reason, Refusal};
use checks::table::Table;
use grammar::{LF, TAB};
use limits::{HEADER_BYTES, TEXT_LIMIT};
use lines::cut::part;
use lines::opening::opening_of;
use operations::RECORD_WORDS;
use printing::put::put_word;
use table_checks::check_table;
use table_lines::fill::{fill_records, fill_rows, survey};
use table_lines::length::{records_length, rows_length};
use table_lines::print::{put_records, put_rows};

pub mod limits; // limits.rt: numbers that 01 sets

// The number of bytes that the text of a table has. Inlined, so that a call takes no more stack for the lent table than it has to.
#[inline(always)]
pub fn size(t: Table) -> Result<usize, Refusal>
    ensures { answer_model result ≡ size_of (in_table t.entry) }
{
    check_table(t)?;
    let rows = rows_length(t.width, t.lock);
    let records = records_length(t.words);
    Ok(HEADER_BYTES + rows + records)
}

// Writes the text of a table into the lent buffer, and answers its byte count.
pub fn write(t: Table, out: &mut [u8]) -> Result<usize, Refusal>
    ensures { write_left result out.new ≡ write_of (in_table t.entry) out.old }
{
    let n = size(t)?;
    if out.len() < n {
        return Err(Refusal {
            reason: Reason::Buffer,
            place: 0,
        });
    }
    let from = put_word(out, 0, b"edition\t3\n");
    let at = put_rows(out, from, t);
    let end = put_records(out, at, t.words);
    Ok(end)
}

// How many rows and how many records a text has.
#[derive(Clone, Copy)]
pub struct Counts {
    pub rows: usize,
    pub records: usize,
}

// A refusal of read.
fn refused(reason: Reason, place: usize) -> Result<Counts, Refusal>
    ensures { result ≡ Err (record { reason = reason; place = place }) }
{
    Err(Refusal { reason, place })
}

// Reads a text into the lent slices, from their start. The text is judged whole before the first slice is written.
pub fn read(
    text: &[u8],
    width: &mut [u8],
    lock: &mut [u8],
    mask: &mut [u32],
    value: &mut [u32],
    words: &mut [u32],
) -> Result<Counts, Refusal>
    ensures { let slices = lent width.old lock.old mask.old value.old words.old in
        let left = lent width.new lock.new mask.new value.new words.new in
        read_left result left ≡ read_of text.now slices }
{
    let n = width.len();
    if lock.len() != n {
        return refused(Reason::Lengths, 0);
    }
    if mask.len() != n {
        return refused(Reason::Lengths, 0);
    }
    if value.len() != n {
        return refused(Reason::Lengths, 0);
    }
    if TEXT_LIMIT < text.len() {
        return refused(Reason::Long, 0);
    }
    let o = opening_of(text);
    let e = o.edition;
    let from = o.at;
    let first = o.first;
    let body = &text[from..];
    let s = survey(e, body, first);
    let bad = s.bad;
    let rows = s.rows;
    let records = s.records;
    if bad != 0 {
        return refused(Reason::Line, bad);
    }
    if n < rows {
        return refused(Reason::Room, 0);
    }
    if words.len() < RECORD_WORDS * records {
        return refused(Reason::Room, 0);
    }
    let at = fill_rows(e, body, rows, width, lock, mask, value);
    fill_records(e, body, at, records, words);
    Ok(Counts { rows, records })
}

// The field named by a line and a field, both from 1: a part of the lent text, and an empty part where there is none.
pub fn field(text: &[u8], line: usize, field: usize) -> &[u8]
    ensures { lies result.ref_ptr result.now ≡ field_of (lies text.entry.ref_ptr text.now) line field }
{
    let l = part(text, line, LF);
    part(l, field, TAB)
}
