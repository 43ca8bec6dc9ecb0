// Tables: the checks of a whole table, for size, run and count.
#![tactic(auto)]

ghost use Rattle.std.specs.Prelude.{◌≡◌, [], ◌≤◌, length};
ghost use Rattle.checks.specs.Limits.{row_limit};
ghost use Rattle.checks.specs.Check.{placed};
ghost use Rattle.checks.specs.Checks.{row_shape_faults, word_faults, stretch_faults, row_named_faults, size_checks, run_checks, count_checks};
ghost use Rattle.checks.specs.Encoding.{RowSlices, head_checks, body_checks};
ghost use Rattle.checks.specs.Model.{in_table, lent, verdict_model, judged};

use checks::limits::{RECORD_LIMIT, ROW_LIMIT};
use checks::records::check_records;
use checks::refusals::Reason;
use checks::rows::check_rows;
use checks::table::Table;
use checks::{Verdict, refuse};
use operations::RECORD_WORDS;

// Checks 1 and 2.
#[tactic(auto, unfolding(checks::specs::Check::verdict))]
pub fn check_shape(t: Table) -> Verdict
    ensures { verdict_model result ≡ judged (placed 0 (row_shape_faults (in_table t.entry))) }
{
    let n = t.width.len();
    if n == 0 {
        return refuse(Reason::Rows, 0);
    }
    if ROW_LIMIT < n {
        return refuse(Reason::Rows, 0);
    }
    if t.lock.len() != n {
        return refuse(Reason::Lengths, 0);
    }
    if t.mask.len() != n {
        return refuse(Reason::Lengths, 0);
    }
    if t.value.len() != n {
        return refuse(Reason::Lengths, 0);
    }
    Ok(())
}

// Check 3, but for the stretch.
pub fn check_words(words: &[u32]) -> Verdict
    ensures { verdict_model result ≡ judged (placed 0 (word_faults (lent [] [] [] [] words.now))) }
{
    if words.len() % RECORD_WORDS != 0 {
        return refuse(Reason::Records, 0);
    }
    if RECORD_LIMIT < words.len() / RECORD_WORDS {
        return refuse(Reason::Records, 0);
    }
    Ok(())
}

// Checks 1 to 3, but for the stretch.
fn check_head(t: Table) -> Verdict
    ensures { verdict_model result ≡ judged (head_checks (in_table t.entry)) }
{
    check_shape(t)?;
    check_words(t.words)
}

// Checks 4 and 5 of the rows, then 6 to 9 of the records, and 10 where it is asked for.
fn check_body(locked: bool, t: Table) -> Verdict
    requires { (length t.width.now ≤ row_limit) × RowSlices t.width.now t.lock.now t.mask.now t.value.now }
    ensures { verdict_model result ≡ judged (body_checks locked (in_table t.entry)) }
{
    check_rows(t)?;
    check_records(locked, t)
}

// What size refuses.
pub fn check_table(t: Table) -> Verdict
    ensures { verdict_model result ≡ judged (size_checks (in_table t.entry)) }
{
    check_head(t)?;
    check_body(false, t)
}

// Check 3, of the stretch.
#[tactic(auto, unfolding(checks::specs::Check::verdict))]
fn check_stretch(words: &[u32], first: usize, last: usize) -> Verdict
    ensures { verdict_model result ≡ judged (placed 0 (stretch_faults (lent [] [] [] [] words.now) first last)) }
{
    if last < first {
        return refuse(Reason::Records, 0);
    }
    if words.len() / RECORD_WORDS < last {
        return refuse(Reason::Records, 0);
    }
    Ok(())
}

// What run refuses.
pub fn check_run(t: Table, first: usize, last: usize) -> Verdict
    ensures { verdict_model result ≡ judged (run_checks (in_table t.entry) first last) }
{
    check_head(t)?;
    check_stretch(t.words, first, last)?;
    check_body(true, t)
}

// Check 7 of a row that a call names.
pub fn check_row_named(width: &[u8], row: usize) -> Verdict
    ensures { verdict_model result ≡ judged (placed row (row_named_faults (lent width.now [] [] [] []) row)) }
{
    if width.len() <= row {
        return refuse(Reason::Row, row);
    }
    Ok(())
}

// What count refuses.
pub fn check_count(t: Table, row: usize) -> Verdict
    ensures { verdict_model result ≡ judged (count_checks (in_table t.entry) row) }
{
    check_shape(t)?;
    check_rows(t)?;
    check_row_named(t.width, row)
}
