// Checks 6 to 10 of records.
ghost use Rattle.std.specs.Prelude.{◌≡◌, [], ◌/◌, ◌≤◌, ◌<◌, length, T};
ghost use Rattle.operations.specs.Limits.{record_words};
ghost use Rattle.operations.specs.Kinds.{is_kind};
ghost use Rattle.operations.specs.Record.{words_of};
ghost use Rattle.operations.specs.Faults.{record_faults, widths_fit};
ghost use Rattle.checks.specs.Limits.{row_limit};
ghost use Rattle.checks.specs.Table.{record_of};
ghost use Rattle.checks.specs.Check.{placed};
ghost use Rattle.checks.specs.Model.{in_table, lent, verdict_model, judged};
ghost use Rattle.checks.specs.Encoding.{WordsPassed, TargetsIn, lock_with, record_with, records_with};

use crate::cells::{cells_fit, target_marked};
use crate::described::{rule_fits, width_at};
use crate::named::check_named;
use crate::refusals::Reason;
use crate::table::Table;
use crate::{Verdict, refuse};
use operations::{RECORD_WORDS, Record, has_cells, rule};

// Record i of the words.
pub fn record_at(words: &[u32], i: usize) -> Record
    requires { i < length words.now / record_words }
    ensures { words_of result ≡ record_of (lent [] [] [] [] words.now) i }
{
    let k = RECORD_WORDS * i;
    Record {
        kind: words[k],
        t: words[k + 1],
        a: words[k + 2],
        b: words[k + 3],
        p: words[k + 4],
        c: words[k + 5],
    }
}

// Whether check 9 passes, of a record that passed 6 to 8.
fn record_fits(width: &[u8], r: Record) -> bool
    requires { WordsPassed (length width.now) (words_of r) }
    ensures { result ≡ widths_fit width.now (words_of r) }
{
    if has_cells(r.kind) {
        return cells_fit(width, r);
    }
    let wt = width_at(width, r.t as usize);
    let wa = width_at(width, r.a as usize);
    rule_fits(
        width,
        rule(r.kind),
        wt,
        wa,
        r.b as usize,
        r.p as usize,
        r.c as usize,
    )
}

// The first of checks 6 to 9 that a record fails.
fn check_record(width: &[u8], r: Record, i: usize) -> Verdict
    requires { length width.now ≤ row_limit }
    ensures { verdict_model result ≡ judged (placed i (record_faults width.now (words_of r))) }
{
    check_named(width.len(), r, i)?;
    if !record_fits(width, r) {
        return refuse(Reason::Fit, i);
    }
    Ok(())
}

// Check 10, where it is asked for: a row that the record writes is locked.
fn check_lock(locked: bool, lock: &[u8], r: Record, i: usize) -> Verdict
    requires { T (is_kind r.kind) × TargetsIn (length lock.now) r }
    ensures { verdict_model result ≡ judged (lock_with locked lock.now (words_of r) i) }
{
    if locked {
        if target_marked(lock, r) {
            return refuse(Reason::Locked, i);
        }
    }
    Ok(())
}

// The first of checks 6 to 9, and 10 where it is asked for, that record i fails.
fn check_one(locked: bool, t: Table, i: usize) -> Verdict
    requires { (length t.width.now ≤ row_limit) × (length t.lock.now ≡ length t.width.now) × (i < length t.words.now / record_words) }
    ensures { verdict_model result ≡ judged (record_with locked (in_table t.entry) i) }
{
    let r = record_at(t.words, i);
    check_record(t.width, r, i)?;
    check_lock(locked, t.lock, r, i)
}

// Records rising, 6 to 9 in number order, and 10 where it is asked for.
pub fn check_records(locked: bool, t: Table) -> Verdict
    requires { (length t.width.now ≤ row_limit) × (length t.lock.now ≡ length t.width.now) }
    ensures { verdict_model result ≡ judged (records_with locked (in_table t.entry)) }
{
    for i in 0..t.words.len() / RECORD_WORDS {
        check_one(locked, t, i)?;
    }
    Ok(())
}
