// Tables grown out of old designs, exported (02, request 13).
ghost use Rattle.std.specs.Prelude.{◌≡◌};
ghost use Rattle.checks.specs.Model.{lent};
ghost use Rattle.needs.specs.Prune.{prune_of, shortened, KeepsMarked};
ghost use Rattle.rifflerleek.specs.Host.{outcome, host_leaves};

use crate::Answer;

// Leaves the records that the marked rows rest on at the start of the words, and zeros after them: `result` of the answer is their number.
pub fn rifflerleek_prune(
    width: &[u8],
    lock: &[u8],
    mask: &[u32],
    value: &[u32],
    words: &mut [u32],
    marks: &[u8],
) -> Answer
    ensures effect { let table = lent width.now lock.now mask.now value.now words.old in
        outcome result words.new ≡ host_leaves (prune_of table marks.now) }
    ensures keeps { let table = lent width.now lock.now mask.now value.now words.old in
        (result.refusal ≡ 0 → KeepsMarked table marks.now result.result (shortened table result.result words.new)) }
{
    Answer::from(pruning::prune(width, lock, mask, value, words, marks))
}
