// Clock after clock until it settles (02, request 12): settle.
#![tactic(auto)]

ghost use Rattle.std.specs.Prelude.{◌≡◌, ℕ};
ghost use Rattle.checks.specs.Check.{done};
ghost use Rattle.checks.specs.Model.{in_table, lent, answer_model, verdict_model, judged};
ghost use Rattle.steps.specs.States.{held};
ghost use Rattle.steps.specs.Encoding.{OwnRows, RoomFor};
ghost use Rattle.tables.specs.Run.{full_run};
ghost use Rattle.rounds.specs.Clock.{pairs_of, rounds_of, last_start};
ghost use Rattle.rounds.specs.Settle.{settle_checks, settle_of, Settles};
ghost use Rattle.rounds.specs.Encoding.{SettleReady};
ghost use Rattle.clocks.specs.Model.{settled};

use checks::Verdict;
use checks::limits::ROW_LIMIT;
use checks::refusals::Refusal;
use checks::table::Table;
use operations::RECORD_WORDS;
use pairs::check_pairs;
use rounds::{rows_still, widen_rows};
use steps::copy_rows;
use table_checks::check_run;
use tables::stepping::step_all;

// What run refuses of all records, then 20.
fn check_settle(t: Table, states: &[u32], nexts: &[u32]) -> Verdict
    ensures { verdict_model result ≡ judged (settle_checks (in_table t.entry) states.now nexts.now) }
{
    check_run(t, 0, t.words.len() / RECORD_WORDS)?;
    check_pairs(t, states, nexts)
}

// Rounds until no state row changes. The lent rows are run, and smask and svalue hold the rows from which each round starts; the lent rows are left as the last
// round's run leaves them.
fn settle_rounds(
    width: &[u8],
    lock: &[u8],
    mask: &mut [u32],
    value: &mut [u32],
    words: &[u32],
    smask: &mut [u32],
    svalue: &mut [u32],
    states: &[u32],
    nexts: &[u32],
) -> usize
    requires { SettleReady (lent width.now lock.now mask.old value.old words.now) states.now nexts.now × OwnRows width.now smask.old svalue.old }
    ensures { let table = lent width.now lock.now mask.old value.old words.now in
        let pairs = pairs_of states.now nexts.now in
        (result ≡ rounds_of table pairs) × (held mask.new value.new ≡ full_run table (last_start table pairs)) }
{
    copy_rows(mask, value, smask, svalue);
    let mut rounds: usize = 0;
    loop {
        step_all(width, mask, value, words);
        rounds += 1;
        if rows_still(mask, value, smask, svalue, states, nexts) {
            return rounds;
        }
        widen_rows(mask, value, smask, svalue, states, nexts);
        copy_rows(smask, svalue, mask, value);
    }
}

// The same with room for the start rows.
fn settle_in(
    width: &[u8],
    lock: &[u8],
    mask: &mut [u32],
    value: &mut [u32],
    words: &[u32],
    rmask: &mut [u32],
    rvalue: &mut [u32],
    states: &[u32],
    nexts: &[u32],
) -> usize
    requires { SettleReady (lent width.now lock.now mask.old value.old words.now) states.now nexts.now × RoomFor width.now rmask.old rvalue.old }
    ensures { let table = lent width.now lock.now mask.old value.old words.now in
        let pairs = pairs_of states.now nexts.now in
        (result ≡ rounds_of table pairs) × (held mask.new value.new ≡ full_run table (last_start table pairs)) }
{
    let n = width.len();
    settle_rounds(
        width,
        lock,
        mask,
        value,
        words,
        &mut rmask[..n],
        &mut rvalue[..n],
        states,
        nexts,
    )
}

// Clock after clock until it settles: rounds from the lent rows, each a run of all records that starts the rows that are no state rows from their start, after which
// each state row is widened to the best vector covering it and its next row, until none changes. The answer is the number of rounds. The rows are left as the last
// round's run leaves them; a refusal leaves them as lent.
pub fn settle(
    width: &[u8],
    lock: &[u8],
    mask: &mut [u32],
    value: &mut [u32],
    words: &[u32],
    states: &[u32],
    nexts: &[u32],
) -> Result<usize, Refusal>
    ensures effect { let table = lent width.now lock.now mask.old value.old words.now in
        settled result mask.new value.new ≡ settle_of table states.now nexts.now }
    ensures settles { let table = lent width.now lock.now mask.old value.old words.now in
        let pairs = pairs_of states.now nexts.now in
        ((n : ℕ) → answer_model result ≡ done n → Settles table pairs n (held mask.new value.new)) }
{
    let table = Table {
        width,
        lock,
        mask,
        value,
        words,
    };
    check_settle(table, states, nexts)?;
    // What the room holds at first is never read. A constant there would be compiled to a call of a function that is not the library's.
    let fill = width[0] as u32;
    let mut rmask = [fill; ROW_LIMIT];
    let mut rvalue = [fill; ROW_LIMIT];
    Ok(settle_in(
        width,
        lock,
        mask,
        value,
        words,
        &mut rmask,
        &mut rvalue,
        states,
        nexts,
    ))
}
