// Tables grown out of old designs (02, request 13): prune.
#![tactic(auto)]

ghost use Rattle.std.specs.Prelude.{◌≡◌, ℕ};
ghost use Rattle.checks.specs.Check.{done, placed};
ghost use Rattle.checks.specs.Model.{answer_model, in_table, judged, lent, verdict_model};
ghost use Rattle.needs.specs.Prune.{mark_faults, prune_checks, prune_of, shortened, KeepsMarked};
ghost use Rattle.pruning.specs.Model.{pruned};

use checks::limits::ROW_LIMIT;
use checks::refusals::{Reason, Refusal};
use checks::table::Table;
use checks::{Verdict, refuse};
use operations::RECORD_WORDS;
use table_checks::check_run;

mod passes; // passes.rt: the pass back and the pass forward

// Check 21, of a table of that many rows.
#[tactic(auto, using(crate::proofs::MarkVerdicts::marks_uneven, crate::proofs::MarkVerdicts::mark_too_big))]
fn check_marks(rows: usize, marks: &[u8]) -> Verdict
    ensures { verdict_model result ≡ judged (placed 0 (mark_faults rows marks.now)) }
{
    if marks.len() != rows {
        return refuse(Reason::Marks, 0);
    }
    for mark in marks {
        if 1 < *mark {
            return refuse(Reason::Marks, 0);
        }
    }
    Ok(())
}

// What run refuses of all records, then 21.
fn check_prune(t: Table, marks: &[u8]) -> Verdict
    ensures { verdict_model result ≡ judged (prune_checks (in_table t.entry) marks.now) }
{
    check_run(t, 0, t.words.len() / RECORD_WORDS)?;
    check_marks(t.width.len(), marks)
}

// The records that feed no marked row go: walked from the last back, a record stays exactly if a row that it writes is needed then. Those that stay move down in
// their order, the freed words become 0, and their number is answered. A refusal leaves the words as lent.
pub fn prune(
    width: &[u8],
    lock: &[u8],
    mask: &[u32],
    value: &[u32],
    words: &mut [u32],
    marks: &[u8],
) -> Result<usize, Refusal>
    ensures effect { let table = lent width.now lock.now mask.now value.now words.old in
        pruned result words.new ≡ prune_of table marks.now }
    ensures keeps { let table = lent width.now lock.now mask.now value.now words.old in
        ((n : ℕ) → answer_model result ≡ done n → KeepsMarked table marks.now n (shortened table n words.new)) }
{
    let table = Table {
        width,
        lock,
        mask,
        value,
        words,
    };
    check_prune(table, marks)?;
    let mut need = [0u8; ROW_LIMIT];
    Ok(passes::keep_needed(words, marks, &mut need))
}
