// The rounds of a table, by enumeration: both records, then every state row for the numbers of itself and of its next row.
ghost use Rattle.std.specs.Prelude.{◌≤◌};

use crate::records::{rows_after, with_row};
use crate::{Pairs, Question};
use oracle::cells::stored;
use oracle::choices::Row;
use reset_trials::rows::{Rows, row_at};

// How many rounds there are, and the rows after the last one's run.
#[derive(Clone, Copy)]
pub struct Ended {
    pub count: usize,
    pub rows: Rows,
}

// State row s for its numbers at the start of a round and for those of its next row n after the run: what a cell can hold after a store by an unknown address.
fn widened(w: u64, start: Rows, ran: Rows, s: u64, n: u64) -> Row
    requires { w ≤ 2 }
{
    let unknown = Row { mask: 1, value: 0 };
    stored(w, 0, 1, unknown, row_at(ran, n % 4), row_at(start, s % 4))
}

// Where the next round starts.
fn next_start(w: u64, pairs: Pairs, start: Rows, ran: Rows) -> Rows
    requires { w ≤ 2 }
{
    if pairs.count == 0 {
        return start;
    }
    let first = widened(w, start, ran, pairs.s0, pairs.n0);
    let second = widened(w, start, ran, pairs.s1, pairs.n1);
    with_row(with_row(start, pairs.s0, first), pairs.s1, second)
}

// The rounds, where they end. 16 are more than there can be.
pub fn all_rounds(q: Question) -> Option<Ended>
    requires { q.w ≤ 2 }
{
    let mut start = q.rows;
    for count in 1..16 {
        let ran = rows_after(q.w, q.second, rows_after(q.w, q.first, start));
        let next = next_start(q.w, q.pairs, start, ran);
        if next == start {
            return Some(Ended { count, rows: ran });
        }
        start = next;
    }
    None
}
