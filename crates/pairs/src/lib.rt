// Check 20 of settle (02, request 12): the pairs of a state row and its next row.
#![tactic(auto)]

ghost use Rattle.std.specs.Prelude.{◌≡◌, [], ◌/◌, ◌<◌, T, eqb, length};
ghost use Rattle.vectors.specs.Lists.{some_of};
ghost use Rattle.operations.specs.Kinds.{is_kind};
ghost use Rattle.operations.specs.Record.{words_of, target_rows};
ghost use Rattle.checks.specs.Check.{placed};
ghost use Rattle.checks.specs.Model.{in_table, lent, verdict_model, judged};
ghost use Rattle.rounds.specs.Settle.{written_row, state_twice, pair_faults, each_pair_checks, pair_checks};
ghost use Rattle.pairs.specs.Encoding.{KnownKinds, PairReady};

use checks::records::record_at;
use checks::refusals::Reason;
use checks::table::Table;
use checks::{Verdict, refuse};
use operations::{RECORD_WORDS, Record, STORE};

// Whether a record writes row i: its target row, or for a store a row of its span.
fn writes(r: Record, i: usize) -> bool
    requires { T (is_kind r.kind) }
    ensures { result ≡ some_of (λ j. eqb j i) (target_rows (words_of r)) }
{
    if r.kind != STORE {
        return r.t as usize == i;
    }
    let base = r.c as usize;
    base <= i && i < base + r.p as usize
}

// Whether some record writes row i.
fn written(words: &[u32], i: usize) -> bool
    requires { KnownKinds words.now }
    ensures { result ≡ written_row (lent [] [] [] [] words.now) i }
{
    for k in 0..words.len() / RECORD_WORDS {
        if writes(record_at(words, k), i) {
            return true;
        }
    }
    false
}

// Whether an earlier pair names the state row of pair i.
#[tactic(auto, using(crate::proofs::Told::named_among))]
fn named_before(states: &[u32], i: usize) -> bool
    requires { i < length states.now }
    ensures { result ≡ state_twice states.now i }
{
    states[..i].contains(&states[i])
}

// Check 20 of pair i.
#[tactic(auto, using(crate::proofs::Told::locked_refused))]
fn check_pair(t: Table, states: &[u32], nexts: &[u32], i: usize) -> Verdict
    requires { PairReady t.width.now t.lock.now t.words.now states.now nexts.now × (i < length states.now) }
    ensures { verdict_model result ≡ judged (placed 0 (pair_faults (in_table t.entry) states.now nexts.now i)) }
{
    let s = states[i] as usize;
    let n = nexts[i] as usize;
    if t.width.len() <= s {
        return refuse(Reason::Pairs, 0);
    }
    if t.width.len() <= n {
        return refuse(Reason::Pairs, 0);
    }
    if t.width[s] != t.width[n] {
        return refuse(Reason::Pairs, 0);
    }
    if named_before(states, i) {
        return refuse(Reason::Pairs, 0);
    }
    if t.lock[s] == 1 {
        return refuse(Reason::Pairs, 0);
    }
    if written(t.words, s) {
        return refuse(Reason::Pairs, 0);
    }
    Ok(())
}

// Check 20 of all pairs, of two lists of one length.
fn check_each_pair(t: Table, states: &[u32], nexts: &[u32]) -> Verdict
    requires { PairReady t.width.now t.lock.now t.words.now states.now nexts.now }
    ensures { verdict_model result ≡ judged (each_pair_checks (in_table t.entry) states.now nexts.now) }
{
    for i in 0..states.len() {
        check_pair(t, states, nexts, i)?;
    }
    Ok(())
}

// Check 20, of a table that passed 1 to 10.
#[tactic(auto, using(crate::proofs::Told::uneven_refused, crate::proofs::Told::even_checked))]
pub fn check_pairs(t: Table, states: &[u32], nexts: &[u32]) -> Verdict
    requires { (length t.lock.now ≡ length t.width.now) × KnownKinds t.words.now }
    ensures { verdict_model result ≡ judged (pair_checks (in_table t.entry) states.now nexts.now) }
{
    if nexts.len() != states.len() {
        return refuse(Reason::Pairs, 0);
    }
    check_each_pair(t, states, nexts)
}
