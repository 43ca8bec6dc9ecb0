// The round trips through the text over the calls themselves (demand 2): each contract is the round trip.
#![tactic(auto)]

ghost use Rattle.checks.specs.Model.{in_table, lent};
ghost use Rattle.trips.specs.Trips.{TableBack, FormBack, BytesBack};
ghost use Rattle.texts.specs.Model.{write_left, read_left};

use checks::refusals::Refusal;
use checks::table::Table;
use operations::RECORD_WORDS;
use texts::{Counts, read, write};

// A table that is written into `out` is read back from there into other slices.
pub fn write_then_read(
    t: Table,
    out: &mut [u8],
    widths: &mut [u8],
    locks: &mut [u8],
    masks: &mut [u32],
    values: &mut [u32],
    records: &mut [u32],
) -> Result<Counts, Refusal>
    ensures { let slices = lent widths.old locks.old masks.old values.old records.old in
        let left = lent widths.new locks.new masks.new values.new records.new in
        TableBack (in_table t.entry) out.old slices (read_left result left) }
{
    let n = write(t, out)?;
    read(&out[..n], widths, locks, masks, values, records)
}

// A text that is read into the slices, of any edition, is written from there into `out` as its edition-3 form.
pub fn listing_then_write(
    text: &[u8],
    width: &mut [u8],
    lock: &mut [u8],
    mask: &mut [u32],
    value: &mut [u32],
    words: &mut [u32],
    out: &mut [u8],
) -> Result<usize, Refusal>
    ensures { let slices = lent width.old lock.old mask.old value.old words.old in
        FormBack text.now slices out.old (write_left result out.new) }
{
    let c = read(text, width, lock, mask, value, words)?;
    let n = RECORD_WORDS * c.records;
    let t = Table {
        width: &width[..c.rows],
        lock: &lock[..c.rows],
        mask: &mask[..c.rows],
        value: &value[..c.rows],
        words: &words[..n],
    };
    write(t, out)
}

// A text of edition 3 that is read into the slices is written back from there into `out`.
pub fn read_then_write(
    text: &[u8],
    width: &mut [u8],
    lock: &mut [u8],
    mask: &mut [u32],
    value: &mut [u32],
    words: &mut [u32],
    out: &mut [u8],
) -> Result<usize, Refusal>
    ensures { let slices = lent width.old lock.old mask.old value.old words.old in
        BytesBack text.now slices out.old (write_left result out.new) }
{
    listing_then_write(text, width, lock, mask, value, words, out)
}
