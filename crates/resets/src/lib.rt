// Which reset bits a conclusion rests on (02, request 9): reset_bits.
#![tactic(auto)]

ghost use Rattle.std.specs.Prelude.{◌≡◌, ℕ};
ghost use Rattle.checks.specs.Check.{done};
ghost use Rattle.checks.specs.Model.{answer_model, in_table, judged, lent, verdict_model};
ghost use Rattle.steps.specs.States.{held};
ghost use Rattle.steps.specs.Encoding.{OwnRows};
ghost use Rattle.conclusions.specs.Encoding.{Named};
ghost use Rattle.conclusions.specs.Reset.{conclusion, naming_checks, reset_of, RestsOn};
ghost use Rattle.resets.specs.Model.{reset_ran};

use checks::Verdict;
use checks::limits::ROW_LIMIT;
use checks::refusals::{Reason, Refusal};
use checks::rows::check_bit;
use checks::table::Table;
use conclusions::{Conclusion, bit_at};
use operations::RECORD_WORDS;
use reset_search::pass;
use steps::copy_rows;
use table_checks::{check_row_named, check_run};
use tables::stepping::step_all;

// What run refuses of all records, then 7 and 15 for the row and bit named.
fn check_naming(t: Table, row: usize, bit: u32) -> Verdict
    ensures { verdict_model result ≡ judged (naming_checks (in_table t.entry) row bit) }
{
    check_run(t, 0, t.words.len() / RECORD_WORDS)?;
    check_row_named(t.width, row)?;
    check_bit(t.width[row] as u32, bit, 0)
}

// The pass for the bit named, with rows for trials. The lent rows are written once the bit is known to end known.
fn reset_with(
    width: &[u8],
    lock: &[u8],
    mask: &mut [u32],
    value: &mut [u32],
    words: &[u32],
    row: usize,
    bit: u32,
    tmask: &mut [u32],
    tvalue: &mut [u32],
) -> Result<u32, Refusal>
    requires { Named (lent width.now lock.now mask.old value.old words.now) row bit × OwnRows width.now tmask.old tvalue.old }
    ensures { let table = lent width.now lock.now mask.old value.old words.now in
        reset_ran result mask.new value.new ≡ reset_of table row bit }
{
    copy_rows(mask, value, tmask, tvalue);
    step_all(width, tmask, tvalue, words);
    if bit_at(tmask[row], bit) != 0 {
        return Err(Refusal {
            reason: Reason::Unknown,
            place: 0,
        });
    }
    let ends = bit_at(tvalue[row], bit);
    let c = Conclusion {
        row,
        at: bit,
        value: ends,
    };
    pass(width, lock, mask, value, words, tmask, tvalue, c);
    Ok(ends)
}

// Which start bits a conclusion rests on: of a row and a bit that a full run leaves known, the known bits of open rows are visited, rows rising, bits rising, and
// each becomes X if the bit then still ends known with its value. The rows are left with these start vectors; a refusal leaves them as lent.
pub fn reset_bits(
    width: &[u8],
    lock: &[u8],
    mask: &mut [u32],
    value: &mut [u32],
    words: &[u32],
    row: usize,
    bit: u32,
) -> Result<u32, Refusal>
    ensures effect { let table = lent width.now lock.now mask.old value.old words.now in
        reset_ran result mask.new value.new ≡ reset_of table row bit }
    ensures rests { let table = lent width.now lock.now mask.old value.old words.now in
        ((b : ℕ) → answer_model result ≡ done b → RestsOn table (conclusion row bit b) (held mask.new value.new)) }
{
    let table = Table {
        width,
        lock,
        mask,
        value,
        words,
    };
    check_naming(table, row, bit)?;
    // Room for the trial rows. What it holds at first is never read.
    let mut rmask = [0u32; ROW_LIMIT];
    let mut rvalue = [0u32; ROW_LIMIT];
    let n = width.len();
    reset_with(
        width,
        lock,
        mask,
        value,
        words,
        row,
        bit,
        &mut rmask[..n],
        &mut rvalue[..n],
    )
}
