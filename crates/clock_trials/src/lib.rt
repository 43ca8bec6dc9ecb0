// Small tables through `settle` (02, request 12), each compared with the rounds by enumeration and with all states that plain clocks reach; and every two small
// states through `compare_states`, compared by the numbers that they cover.
// A table has four rows of one width, 1 or 2, and two records. Rows 0 and 1 are there to be state rows; the records write row 3, and row 2 or not. Row 2 is
// locked where nothing writes it.
#![tactic(auto)]

ghost use Rattle.std.specs.Prelude.{◌≤◌};

use checks::refusals::{Reason, Refusal};
use clocks::settle;
use oracle::numbers::{byte, times, truth, word};
use oracle::shapes::STORE;
use reached::cover_all;
use records::Record;
use reset_trials::rows::{Rows, masks, values};
use widening::all_rounds;

pub mod compared; // compared.rt: two states, through `compare_states`
mod designs; // designs.rt: the tables by their numbers
mod numbers; // numbers.rt: the numbers of a plain run
mod reached; // reached.rt: all states that plain clocks reach
mod records; // records.rt: what a record makes of rows
pub mod sweeps; // sweeps.rt: the tables tried
mod widening; // widening.rt: the rounds

// How many state rows there are and how many next rows, and two of each. A single pair is there twice. The pairs may be such that `settle` refuses them.
#[derive(Clone, Copy)]
struct Pairs {
    count: u64,
    nexts: u64,
    refused: bool,
    s0: u64,
    n0: u64,
    s1: u64,
    n1: u64,
}

// A table: the width, the rows, both records and the pairs.
#[derive(Clone, Copy)]
struct Question {
    w: u64,
    rows: Rows,
    first: Record,
    second: Record,
    pairs: Pairs,
}

// Whether nothing writes row 2.
fn is_input(first: Record, second: Record) -> bool {
    first.t == 3 && second.t == 3 && first.kind != STORE && second.kind != STORE
}

// The words of both records.
fn words(r: Record, s: Record) -> [u32; 12] {
    [
        word(r.kind),
        word(r.t),
        word(r.a),
        word(r.b),
        word(r.p),
        word(r.c),
        word(s.kind),
        word(s.t),
        word(s.a),
        word(s.b),
        word(s.p),
        word(s.c),
    ]
}

// Settles a table.
fn settle_table(q: Question, mask: &mut [u32; 4], value: &mut [u32; 4]) -> Result<usize, Refusal> {
    let w = byte(q.w);
    let width = [w, w, w, w];
    let lock = [0u8, 0, byte(truth(is_input(q.first, q.second))), 0];
    let words = words(q.first, q.second);
    let states = [word(q.pairs.s0), word(q.pairs.s1)];
    let nexts = [word(q.pairs.n0), word(q.pairs.n1)];
    let n = (q.pairs.count % 3) as usize;
    let m = (q.pairs.nexts % 3) as usize;
    settle(
        &width,
        &lock,
        mask,
        value,
        &words,
        &states[0..n],
        &nexts[0..m],
    )
}

// Whether `settle` gives this answer and leaves these rows.
fn leaves(q: Question, due: Result<usize, Refusal>, left: Rows) -> bool {
    let mut mask = masks(q.rows);
    let mut value = values(q.rows);
    let answer = settle_table(q, &mut mask, &mut value);
    answer == due && mask == masks(left) && value == values(left)
}

// Whether `settle` and the rounds by enumeration agree, there are at most as many as the state bits and one more, and the rows left cover every plain clock.
fn agrees(q: Question) -> bool
    requires { q.w ≤ 2 }
{
    if q.pairs.refused {
        let refused = Refusal {
            reason: Reason::Pairs,
            place: 0,
        };
        return leaves(q, Err(refused), q.rows);
    }
    let Some(right) = all_rounds(q) else {
        return false;
    };
    let most = times(q.pairs.count % 3, q.w) + 1;
    right.count as u64 <= most && leaves(q, Ok(right.count), right.rows) && cover_all(q, right.rows)
}
