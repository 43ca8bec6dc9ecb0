// Every pair of ends, through the call on a bare vector: whether what `range` answers is right, by counting over all numbers.
ghost use Rattle.std.specs.Prelude.{◌≤◌};
ghost use Rattle.bits.specs.Limits.{width_limit};

use checks::refusals::Reason;
use oracle::choices::{Row, Seen, bits_of, both, covers, row_of};
use oracle::numbers::{power, word};
use range_search::Range;
use trials::counting::{Tally, each, one};
use vector_calls::range;

// Numbers met: the first and the last of them, and their bits.
#[derive(Clone, Copy)]
struct Numbers {
    first: u64,
    last: u64,
    seen: Seen,
}

// The numbers met before, if any, and the number x of width w.
fn with_number(before: Option<Numbers>, w: u64, x: u64) -> Numbers
    requires { w ≤ width_limit }
{
    let here = bits_of(w, x);
    match before {
        Some(all) => Numbers {
            first: all.first,
            last: x,
            seen: both(all.seen, here),
        },
        None => Numbers {
            first: x,
            last: x,
            seen: here,
        },
    }
}

// All numbers of width w between the ends that the row covers, rising; none where there is no such number.
fn numbers_between(w: u64, row: Row, low: u64, high: u64) -> Option<Numbers>
    requires { w ≤ width_limit }
{
    let mut all = None;
    for x in 0..power(w) {
        if low <= x && x <= high && covers(w, row, x) {
            all = Some(with_number(all, w, x));
        }
    }
    all
}

// What is due: the numbers met, or the reason of a refusal.
fn due(w: u64, row: Row, low: u64, high: u64) -> Result<Numbers, Reason>
    requires { w ≤ width_limit }
{
    let end = power(w);
    if low > high || low >= end || high >= end {
        return Err(Reason::Ends);
    }
    numbers_between(w, row, low, high).ok_or(Reason::Empty)
}

// Whether the answer is that of the numbers met.
fn is_range(found: Range, all: Numbers) -> bool {
    let vector = Row {
        mask: found.mask,
        value: found.value,
    };
    vector == row_of(all.seen)
        && found.smallest as u64 == all.first
        && found.largest as u64 == all.last
}

// Whether `range` and the counting agree.
fn agrees(w: u64, row: Row, low: u64, high: u64) -> bool
    requires { w ≤ width_limit }
{
    match (
        range(word(w), row.mask, row.value, low, high),
        due(w, row, low, high),
    ) {
        (Ok(x), Ok(all)) => is_range(x, all),
        (Err(r), Err(reason)) => r.reason == reason && r.place == 0,
        _ => false,
    }
}

// Every pair of ends from 0 to 2^w.
pub fn each_pair(w: u64, row: Row) -> Tally
    requires { w ≤ width_limit }
{
    let ends = power(w) + 1;
    each(
        ends,
        |low| each(ends, |high| one(agrees(w, row, low, high))),
    )
}
