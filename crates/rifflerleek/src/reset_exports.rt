// Which reset bits a conclusion rests on, exported (02, request 9).
ghost use Rattle.std.specs.Prelude.{◌≡◌};
ghost use Rattle.checks.specs.Model.{lent};
ghost use Rattle.steps.specs.States.{held};
ghost use Rattle.conclusions.specs.Reset.{conclusion, reset_of, RestsOn};
ghost use Rattle.rifflerleek.specs.Host.{outcome, host_leaves};

use crate::{Answer, done, refused};

// Leaves the rows with the start vectors on which the bit named rests: `result` of the answer is the bit's value.
pub fn rifflerleek_reset_bits(
    width: &[u8],
    lock: &[u8],
    mask: &mut [u32],
    value: &mut [u32],
    words: &[u32],
    row: usize,
    bit: u32,
) -> Answer
    ensures effect { let table = lent width.now lock.now mask.old value.old words.now in
        outcome result (held mask.new value.new) ≡ host_leaves (reset_of table row bit) }
    ensures rests { let table = lent width.now lock.now mask.old value.old words.now in
        (result.refusal ≡ 0 → RestsOn table (conclusion row bit result.result) (held mask.new value.new)) }
{
    match resets::reset_bits(width, lock, mask, value, words, row, bit) {
        Ok(b) => done(b as usize, 0),
        Err(r) => refused(r),
    }
}
