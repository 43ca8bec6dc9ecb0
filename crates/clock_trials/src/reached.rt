// All states that plain clocks reach, from all covered starts with all covered inputs at each clock. A state is the numbers of the state rows, 0 for the other
// rows, and below 16: a set of states has a bit for each.
use crate::numbers::{number_at, numbers_after};
use crate::records::with_number;
use crate::{Pairs, Question};
use reset_trials::rows::Rows;

// The states after clocks, and whether the rows left cover all numbers at the end of each.
#[derive(Clone, Copy)]
struct Clocks {
    after: u64,
    covered: bool,
}

// Whether the rows cover these numbers: they agree at every known bit.
pub fn cover(rows: Rows, numbers: u64) -> bool {
    numbers | rows.mask == rows.value | rows.mask
}

// The state after a clock: each next row's number goes to its state row.
fn latched(pairs: Pairs, end: u64) -> u64 {
    if pairs.count == 0 {
        return 0;
    }
    let first = with_number(0, pairs.s0, number_at(end, pairs.n0));
    with_number(first, pairs.s1, number_at(end, pairs.n1))
}

// These clocks and the one that starts from these numbers.
fn with_clock(q: Question, left: Rows, clocks: Clocks, numbers: u64) -> Clocks {
    let end = numbers_after(q.w, q.second, numbers_after(q.w, q.first, numbers));
    Clocks {
        after: clocks.after | 1u64 << (latched(q.pairs, end) % 16),
        covered: clocks.covered && cover(left, end),
    }
}

// Every clock whose numbers are one of the states at these bits, and covered by the start rows at the others.
fn each_clock(q: Question, left: Rows, bits: u64, states: u64) -> Clocks {
    let start = Rows {
        mask: q.rows.mask | bits,
        value: q.rows.value,
    };
    let mut clocks = Clocks {
        after: 0,
        covered: true,
    };
    for numbers in 0..256 {
        if cover(start, numbers) && states & 1u64 << ((numbers & bits) % 16) != 0 {
            clocks = with_clock(q, left, clocks, numbers);
        }
    }
    clocks
}

// Whether the rows left cover every clock. The first starts from any numbers that the start rows cover. Each turn but the last meets a new state, of which
// there are at most 16.
pub fn cover_all(q: Question, left: Rows) -> bool {
    let bits = latched(q.pairs, 0b11111111);
    let mut clocks = each_clock(q, left, 0, 1);
    let mut met: u64 = 0;
    for _ in 0..17 {
        let fresh = (clocks.after | met) ^ met;
        if !clocks.covered || fresh == 0 {
            return clocks.covered;
        }
        clocks = each_clock(q, left, bits, fresh);
        met |= fresh;
    }
    false
}
