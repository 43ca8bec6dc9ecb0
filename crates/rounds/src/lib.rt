// Clock after clock until it settles (02, request 12): rounds over definitions, and the end of a round on rows.
#![tactic(auto)]

ghost use Rattle.std.specs.Prelude.{◌≡◌, List, ℕ, ◌<◌, length};
ghost use Rattle.checks.specs.Table.{row_at};
ghost use Rattle.steps.specs.Step.{put};
ghost use Rattle.steps.specs.States.{held};
ghost use Rattle.orders.specs.Order.{equal_row};
ghost use Rattle.rounds.specs.Clock.{pair, pairs_of, widened, widen, unchanged};
ghost use Rattle.rounds.specs.Encoding.{WidenReady};

use lookups::join_if;
use orders::rows::inside_row;
use vectors::Vector;

// Whether widening would leave a state row as it is: its next row, as the run left it, lies inside it.
fn row_still(mask: &[u32], value: &[u32], smask: &[u32], svalue: &[u32], s: usize, n: usize) -> bool
    requires { (n < length mask.now) × (n < length value.now) × (s < length smask.now) × (s < length svalue.now) }
    ensures { let ran = held mask.now value.now in
        let start = held smask.now svalue.now in
        ((widths : List ℕ) → result ≡ equal_row (widened widths ran start (pair s n)) (row_at widths start s)) }
{
    let next = Vector {
        mask: mask[n],
        value: value[n],
    };
    let state = Vector {
        mask: smask[s],
        value: svalue[s],
    };
    inside_row(next, state)
}

// Whether widening would leave every state row as it is.
pub fn rows_still(
    mask: &[u32],
    value: &[u32],
    smask: &[u32],
    svalue: &[u32],
    states: &[u32],
    nexts: &[u32],
) -> bool
    requires { WidenReady (held mask.now value.now) (held smask.now svalue.now) states.now nexts.now }
    ensures { let ran = held mask.now value.now in
        let start = held smask.now svalue.now in
        ((widths : List ℕ) → result ≡ unchanged widths (pairs_of states.now nexts.now) ran start) }
{
    for i in 0..states.len() {
        if !row_still(
            mask,
            value,
            smask,
            svalue,
            states[i] as usize,
            nexts[i] as usize,
        ) {
            return false;
        }
    }
    true
}

// One state row widened: it becomes the best vector covering it and its next row, as the run left that.
fn widen_row(mask: &[u32], value: &[u32], smask: &mut [u32], svalue: &mut [u32], s: usize, n: usize)
    requires { (n < length mask.now) × (n < length value.now) × (s < length smask.old) × (s < length svalue.old) }
    ensures { let ran = held mask.now value.now in
        let start = held smask.old svalue.old in
        ((widths : List ℕ) → held smask.new svalue.new ≡ put start s (widened widths ran start (pair s n))) }
{
    let next = Vector {
        mask: mask[n],
        value: value[n],
    };
    let state = Vector {
        mask: smask[s],
        value: svalue[s],
    };
    let joined = join_if(true, state, next);
    smask[s] = joined.mask;
    svalue[s] = joined.value;
}

// Every state row widened. The rows that the run left stand apart, so it is all together: a next row that is a state row gives its vector before the widening.
pub fn widen_rows(
    mask: &[u32],
    value: &[u32],
    smask: &mut [u32],
    svalue: &mut [u32],
    states: &[u32],
    nexts: &[u32],
)
    requires { WidenReady (held mask.now value.now) (held smask.old svalue.old) states.now nexts.now }
    ensures { let ran = held mask.now value.now in
        let start = held smask.old svalue.old in
        ((widths : List ℕ) → held smask.new svalue.new ≡ widen widths (pairs_of states.now nexts.now) ran start) }
{
    for i in 0..states.len() {
        widen_row(
            mask,
            value,
            smask,
            svalue,
            states[i] as usize,
            nexts[i] as usize,
        );
    }
}
