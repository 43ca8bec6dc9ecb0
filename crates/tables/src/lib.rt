// Tables: run and count.
#![tactic(auto)]

ghost use Rattle.std.specs.Prelude.{◌≡◌, []};
ghost use Rattle.checks.specs.Check.{done};
ghost use Rattle.checks.specs.Model.{answer_model, in_table, lent};
ghost use Rattle.tables.specs.Run.{run_of, count_of};
ghost use Rattle.tables.specs.Known.{Demand2};
ghost use Rattle.tables.specs.Demand.{Demand3};
ghost use Rattle.tables.specs.Model.{ran};
ghost use Rattle.steps.specs.States.{held};

use checks::refusals::Refusal;
use checks::table::Table;
use operations::RECORD_WORDS;
use stepping::step_all;
use table_checks::{check_count, check_run};

pub mod stepping; // stepping.rt: what records do to the rows

// The unknown bits u of a row, and 2^u.
#[derive(Clone, Copy, PartialEq, Eq)]
pub struct Counted {
    pub unknown: u32,
    pub choices: u64,
}

// How many bits of a row are unknown, and how many numbers it covers.
pub fn count(t: Table, row: usize) -> Result<Counted, Refusal>
    ensures { answer_model result ≡ count_of (in_table t.entry) row }
{
    check_count(t, row)?;
    let u = t.mask[row].count_ones();
    Ok(Counted {
        unknown: u,
        choices: 1 << u,
    })
}

// Runs the stretch of records from first up to but not including last; the answer is last. The whole table is checked first; a refusal leaves the rows as lent.
pub fn run(
    width: &[u8],
    lock: &[u8],
    mask: &mut [u32],
    value: &mut [u32],
    words: &[u32],
    first: usize,
    last: usize,
) -> Result<usize, Refusal>
    ensures effect { let table = lent width.now lock.now mask.old value.old words.now in
        ran result mask.new value.new ≡ run_of table first last }
    ensures demand2 { let table = lent width.now lock.now mask.old value.old words.now in
        (answer_model result ≡ done last → Demand2 table first last (held mask.new value.new)) }
    ensures demand3 { let table = lent width.now lock.now mask.old value.old words.now in
        (answer_model result ≡ done last → Demand3 table first last (held mask.new value.new)) }
{
    let table = Table {
        width,
        lock,
        mask,
        value,
        words,
    };
    check_run(table, first, last)?;
    let start = RECORD_WORDS * first;
    let end = RECORD_WORDS * last;
    step_all(width, mask, value, &words[start..end]);
    Ok(last)
}
