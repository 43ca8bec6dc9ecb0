// Every two states of two rows through `compare_states`, with rows that are well formed or not, compared by the numbers that they cover.
// The two rows are the first of four, of which the others are 0.
ghost use Rattle.std.specs.Prelude.{◌≡◌, ◌≤◌, Some};
ghost use Rattle.checks.specs.Model.{reason_number};

use crate::reached::cover;
use checks::refusals::{Reason, Refusal};
use oracle::numbers::byte;
use orders::{Order, compare_states};
use reset_trials::rows::{Rows, masks, values};
use trials::counting::{Tally, each, joined, one};

// Whether the second state covers all numbers that the first covers.
fn is_inside(a: Rows, b: Rows) -> bool {
    (0..16).all(|numbers| !cover(a, numbers) || cover(b, numbers))
}

// A refusal of a row, or of no row at place 0.
fn refused(reason: Reason, place: usize) -> Result<Order, Refusal> {
    Err(Refusal { reason, place })
}

// What is wrong with a row of two states, if anything: its width; or its bits, of which some are set in both mask and value, and some in any of them.
fn fault(w: u64, shared: u64, set: u64) -> Option<Reason>
    ensures { (r : Reason) → result ≡ Some r → reason_number r ≤ 5 }
{
    if w == 0 || w > 32 {
        return Some(Reason::Width);
    }
    if shared % 4 != 0 || w == 1 && set % 4 > 1 {
        return Some(Reason::Vector);
    }
    None
}

// The answer that is due.
fn due(w0: u64, w1: u64, a: Rows, b: Rows) -> Result<Order, Refusal> {
    let shared = a.mask & a.value | b.mask & b.value;
    let set = a.mask | a.value | b.mask | b.value;
    if let Some(reason) = fault(w0, shared, set) {
        return refused(reason, 0);
    }
    if let Some(reason) = fault(w1, shared / 4, set / 4) {
        return refused(reason, 1);
    }
    let order = match (is_inside(a, b), is_inside(b, a)) {
        (true, true) => Order::Equal,
        (true, false) => Order::Inside,
        (false, true) => Order::Around,
        (false, false) => Order::NoneOfThese,
    };
    Ok(order)
}

// Whether `compare_states` and the numbers agree on two states by their bits: masks and values of the first, then of the second.
fn agrees(w0: u64, w1: u64, n: u64) -> bool {
    let a = Rows {
        mask: n % 16,
        value: n / 16 % 16,
    };
    let b = Rows {
        mask: n / 256 % 16,
        value: n / 4096 % 16,
    };
    let width = [byte(w0), byte(w1), 1, 1];
    let answer = compare_states(&width, &masks(a), &values(a), &masks(b), &values(b));
    answer == due(w0, w1, a, b)
}

// Whether slices of these lengths, the masks and values of both states in their order, are refused for this reason, at place 0.
fn lengths(rows: usize, m: usize, v: usize, n: usize, u: usize, reason: Reason) -> Tally
    requires { (rows ≤ 257) × (m ≤ 2) × (v ≤ 2) × (n ≤ 2) × (u ≤ 2) }
{
    let width = [1u8; 257];
    let mask_1 = [0u32; 2];
    let value_1 = [0u32; 2];
    let mask_2 = [0u32; 2];
    let value_2 = [0u32; 2];
    let answer = compare_states(
        &width[0..rows],
        &mask_1[0..m],
        &value_1[0..v],
        &mask_2[0..n],
        &value_2[0..u],
    );
    one(answer == refused(reason, 0))
}

// No row and 257 rows, whatever the other lengths are; and each slice shorter than the others.
fn lengths_refused() -> Tally {
    let mut tally = lengths(0, 2, 2, 2, 2, Reason::Rows);
    tally = joined(tally, lengths(257, 2, 2, 2, 2, Reason::Rows));
    tally = joined(tally, lengths(2, 1, 2, 2, 2, Reason::Lengths));
    tally = joined(tally, lengths(2, 2, 1, 2, 2, Reason::Lengths));
    tally = joined(tally, lengths(2, 2, 2, 1, 2, Reason::Lengths));
    joined(tally, lengths(2, 2, 2, 2, 1, Reason::Lengths))
}

// A width: 1 or 2, or one that there is not.
fn width(n: u64) -> u64 {
    match n % 4 {
        0 => 0,
        1 => 1,
        2 => 2,
        _ => 33,
    }
}

// Every two states with rows of every two of these widths and slices of other lengths, and those on which `compare_states` disagrees.
pub fn ordered() -> Tally {
    let states = each(1048576, |n| {
        let w0 = width(n / 65536);
        let w1 = width(n / 262144);
        one(agrees(w0, w1, n % 65536))
    });
    joined(lengths_refused(), states)
}
