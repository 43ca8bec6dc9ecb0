// From a text to what `evaluate` prints (01, "Text").
#![tactic(auto)]

ghost use Rattle.std.specs.Prelude.{◌≡◌, List, ℕ, ◌≤◌, length};
ghost use Rattle.checks.specs.Model.{lent};
ghost use Rattle.evaluation.specs.Evaluate.{Printed, Told, Rooms, HeldOf, text_room, output_room, refused_line, printed_table, evaluate_in, evaluate_of};

use checks::limits::{RECORD_LIMIT, ROW_LIMIT};
use checks::refusals::Refusal;
use checks::table::Table;
use operations::RECORD_WORDS;
use printing::put::{put_number, put_word};
use tables::run;
use texts::limits::{HEADER_BYTES, RECORD_BYTES, ROW_BYTES, TEXT_LIMIT};
use texts::{read, write};

// One byte more than a text may have: a buffer that shows a longer input to be longer.
const TEXT_ROOM: usize = TEXT_LIMIT + 1;

// The most bytes of the header and of the lines of the most rows and records, which no output exceeds: 38,922.
const OUTPUT_ROOM: usize = HEADER_BYTES + ROW_BYTES * ROW_LIMIT + RECORD_BYTES * RECORD_LIMIT;

// The words of the most records.
const HELD_WORDS: usize = RECORD_WORDS * RECORD_LIMIT;

// A buffer for an input, all 0.
pub fn text_buffer() -> [u8; TEXT_ROOM]
    ensures { text_room ≡ length result }
{
    [0u8; TEXT_ROOM]
}

// A buffer for what is printed, all 0.
pub fn output_buffer() -> [u8; OUTPUT_ROOM]
    ensures { output_room ≡ length result }
{
    [0u8; OUTPUT_ROOM]
}

// The line of a refusal, put into the buffer from its start; its bytes are counted.
fn put_refusal(out: &mut [u8], number: u32, place: usize) -> usize
    requires { output_room ≤ length out.old }
    ensures { Printed (refused_line number place) result out.old out.new }
{
    let after_word = put_word(out, 0, b"refused\t");
    let after_number = put_number(out, after_word, number as usize);
    let after_tab = put_word(out, after_number, b"\t");
    let after_place = put_number(out, after_tab, place);
    put_word(out, after_place, b"\n")
}

// All records of the lent table run, and the whole table put into the buffer; its bytes are counted. A refusal leaves the buffer.
fn print_table(
    width: &[u8],
    lock: &[u8],
    mask: &mut [u32],
    value: &mut [u32],
    words: &[u32],
    out: &mut [u8],
) -> Result<usize, Refusal>
    requires { output_room ≤ length out.old }
    ensures { let table = lent width.now lock.now mask.old value.old words.now in
        Told (printed_table table) result out.old out.new }
{
    let last = words.len() / RECORD_WORDS;
    run(width, lock, mask, value, words, 0, last)?;
    let t = Table {
        width,
        lock,
        mask,
        value,
        words,
    };
    write(t, out)
}

// The text read into the lent slices, its records run, and the whole table put into the buffer; its bytes are counted. A refusal leaves the buffer.
fn evaluate_in(
    text: &[u8],
    width: &mut [u8],
    lock: &mut [u8],
    mask: &mut [u32],
    value: &mut [u32],
    words: &mut [u32],
    out: &mut [u8],
) -> Result<usize, Refusal>
    requires { output_room ≤ length out.old }
    ensures { let slices = lent width.old lock.old mask.old value.old words.old in
        Told (evaluate_in text.now slices) result out.old out.new }
{
    let c = read(text, width, lock, mask, value, words)?;
    let n = RECORD_WORDS * c.records;
    print_table(
        &width[..c.rows],
        &lock[..c.rows],
        &mut mask[..c.rows],
        &mut value[..c.rows],
        &words[..n],
        out,
    )
}

// What `evaluate` prints for a text, put into the buffer from its start; its bytes are counted.
fn evaluate_text(text: &[u8], out: &mut [u8]) -> usize
    requires { output_room ≤ length out.old }
    ensures { Printed (evaluate_of text.now) result out.old out.new }
{
    let mut width = [0u8; ROW_LIMIT];
    let mut lock = [0u8; ROW_LIMIT];
    let mut mask = [0u32; ROW_LIMIT];
    let mut value = [0u32; ROW_LIMIT];
    let mut words = [0u32; HELD_WORDS];
    match evaluate_in(
        text, &mut width, &mut lock, &mut mask, &mut value, &mut words, out,
    ) {
        Ok(n) => n,
        Err(r) => put_refusal(out, r.reason.number(), r.place),
    }
}

// What `evaluate` prints for an input, of which the first bytes, as many as the buffer holds, were put at the buffer's start: n of them.
pub fn evaluate_input(text: &[u8], n: usize, out: &mut [u8]) -> usize
    requires { Rooms text.now n out.old }
    ensures { (input : List ℕ) → HeldOf text.now n input → Printed (evaluate_of input) result out.old out.new }
{
    evaluate_text(&text[..n], out)
}
