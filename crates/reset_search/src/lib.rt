// Which start bits a conclusion rests on (02, request 9): the pass, for a caller that has checked.
#![tactic(auto)]

ghost use Rattle.std.specs.Prelude.{◌≡◌, List, ℕ, ◌<◌, length};
ghost use Rattle.checks.specs.Accepted.{Accepted};
ghost use Rattle.checks.specs.Table.{start_of, record_count};
ghost use Rattle.checks.specs.Model.{lent};
ghost use Rattle.steps.specs.States.{held};
ghost use Rattle.conclusions.specs.Encoding.{InTable};
ghost use Rattle.conclusions.specs.Pass as Pass;
ghost use Rattle.conclusions.specs.Pass.{position, bits_in, concludesb, walk, pass_rows};
ghost use Rattle.reset_search.specs.Encoding.{TrialReady, PassReady};

use conclusions::{Conclusion, bit_at, forget, holds};
use steps::copy_rows;
use tables::stepping::step_all;

// A trial: whether the conclusion keeps its value where bit k of row i is X. A full run from the rows as they are, on rows of its own.
fn keeps(
    width: &[u8],
    mask: &[u32],
    value: &[u32],
    words: &[u32],
    tmask: &mut [u32],
    tvalue: &mut [u32],
    c: Conclusion,
    i: usize,
    k: u32,
) -> bool
    requires { TrialReady width.now (held mask.now value.now) words.now c tmask.old tvalue.old × InTable width.now i k }
    ensures { (locks : List ℕ) →
        let table = lent width.now locks mask.now value.now words.now in
        Accepted table 0 (record_count table) → result ≡ concludesb table c (Pass.forget width.now (start_of table) (position i k)) }
{
    copy_rows(mask, value, tmask, tvalue);
    forget(tmask, tvalue, i, k);
    step_all(width, tmask, tvalue, words);
    let row = c.row;
    holds(tmask[row], tvalue[row], c)
}

// One visit: bit k of row i becomes X if it is known and the conclusion then keeps its value.
fn visit(
    width: &[u8],
    mask: &mut [u32],
    value: &mut [u32],
    words: &[u32],
    tmask: &mut [u32],
    tvalue: &mut [u32],
    c: Conclusion,
    i: usize,
    k: u32,
)
    requires { TrialReady width.now (held mask.old value.old) words.now c tmask.old tvalue.old × InTable width.now i k }
    ensures { (locks : List ℕ) →
        let table = lent width.now locks mask.old value.old words.now in
        Accepted table 0 (record_count table) → held mask.new value.new ≡ Pass.visit table c (start_of table) (position i k) }
{
    if bit_at(mask[i], k) == 0 && keeps(width, mask, value, words, tmask, tvalue, c, i, k) {
        forget(mask, value, i, k);
    }
}

// The bits of row i, rising, if it is open.
#[tactic(auto, using(crate::proofs::Passes::locked_row))]
fn visit_row(
    width: &[u8],
    lock: &[u8],
    mask: &mut [u32],
    value: &mut [u32],
    words: &[u32],
    tmask: &mut [u32],
    tvalue: &mut [u32],
    c: Conclusion,
    i: usize,
)
    requires { PassReady (lent width.now lock.now mask.old value.old words.now) c tmask.old tvalue.old × (i < length width.now) }
    ensures { let table = lent width.now lock.now mask.old value.old words.now in
        held mask.new value.new ≡ walk table c (bits_in table i) (start_of table) }
{
    if lock[i] != 0 {
        return;
    }
    let w = width[i] as u32;
    for k in 0..w {
        visit(width, mask, value, words, tmask, tvalue, c, i, k);
    }
}

// The pass: the bits of open rows, rows rising. The rows are left with the start vectors that it finds.
pub fn pass(
    width: &[u8],
    lock: &[u8],
    mask: &mut [u32],
    value: &mut [u32],
    words: &[u32],
    tmask: &mut [u32],
    tvalue: &mut [u32],
    c: Conclusion,
)
    requires { PassReady (lent width.now lock.now mask.old value.old words.now) c tmask.old tvalue.old }
    ensures { let table = lent width.now lock.now mask.old value.old words.now in
        held mask.new value.new ≡ pass_rows table c }
{
    for i in 0..width.len() {
        visit_row(width, lock, mask, value, words, tmask, tvalue, c, i);
    }
}
