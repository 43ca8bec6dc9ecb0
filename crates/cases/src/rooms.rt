// The room for a table's text: whether size tells it exactly (02, request 1).
ghost use Rattle.std.specs.Prelude.{◌*◌, ◌≤◌, length};
ghost use Rattle.operations.specs.Limits.{record_words};

use checks::limits::{RECORD_LIMIT, ROW_LIMIT};
use checks::refusals::{Reason, Refusal};
use checks::table::Table;
use operations::RECORD_WORDS;
use texts::{Counts, read, size, write};

const HELD_WORDS: usize = RECORD_WORDS * RECORD_LIMIT;

// What a text is: none that can be read, that of a table for which the room is exact, or that of one for which it is not.
#[derive(Clone, Copy)]
pub enum Room {
    NoTable,
    Exact,
    Other,
}

// Whether write refuses the buffer as too short.
fn refuses(t: Table, out: &mut [u8]) -> bool {
    matches!(
        write(t, out),
        Err(Refusal {
            reason: Reason::Buffer,
            ..
        })
    )
}

// Whether write fills the whole buffer with the text.
fn fills(t: Table, text: &[u8], out: &mut [u8]) -> bool {
    write(t, out) == Ok(out.len()) && *out == *text
}

// Whether size answers the bytes of the text, and write fills a buffer of exactly that length with it and refuses one byte less.
fn is_exact(t: Table, text: &[u8]) -> bool {
    let n = text.len();
    let mut whole = evaluation::text_buffer();
    let mut less = evaluation::text_buffer();
    if n == 0 {
        return false;
    }
    if whole.len() < n {
        return false;
    }
    size(t) == Ok(n) && refuses(t, &mut less[..n - 1]) && fills(t, text, &mut whole[..n])
}

// What a text is, by the slices into which it was read, and what read counted.
fn room_in(slices: Table, c: Counts, text: &[u8]) -> Room
    requires { (c.rows ≤ length slices.width.now) × (c.rows ≤ length slices.lock.now) × (c.rows ≤ length slices.mask.now) × (c.rows ≤ length slices.value.now)
        × (record_words * c.records ≤ length slices.words.now) }
{
    let n = RECORD_WORDS * c.records;
    let t = Table {
        width: &slices.width[..c.rows],
        lock: &slices.lock[..c.rows],
        mask: &slices.mask[..c.rows],
        value: &slices.value[..c.rows],
        words: &slices.words[..n],
    };
    if is_exact(t, text) {
        Room::Exact
    } else {
        Room::Other
    }
}

// What a text is.
pub fn room_of(text: &[u8]) -> Room {
    let mut width = [0u8; ROW_LIMIT];
    let mut lock = [0u8; ROW_LIMIT];
    let mut mask = [0u32; ROW_LIMIT];
    let mut value = [0u32; ROW_LIMIT];
    let mut words = [0u32; HELD_WORDS];
    let Ok(c) = read(
        text, &mut width, &mut lock, &mut mask, &mut value, &mut words,
    ) else {
        return Room::NoTable;
    };
    let slices = Table {
        width: &width,
        lock: &lock,
        mask: &mask,
        value: &value,
        words: &words,
    };
    room_in(slices, c, text)
}
