// The tables tried, each with the marks that are drawn for it and with marks that are refused.
use crate::drawing::{drawn_marks, drawn_records};
use crate::{agrees, kept_of, leaves};
use checks::refusals::{Reason, Refusal};
use trials::counting::{Tally, each, joined, one};

// How many tables are drawn, and how many records they have.
const TABLES: u64 = 524288;

pub const RECORDS: u64 = 4 * TABLES;

// The answers where marks are refused, and where all rows are locked, so that the first record is.
const MARKS: Result<usize, Refusal> = Err(Refusal {
    reason: Reason::Marks,
    place: 0,
});

const LOCKED: Result<usize, Refusal> = Err(Refusal {
    reason: Reason::Locked,
    place: 0,
});

// A table with right marks; with marks that are refused: one over 1, fewer than the rows, and more; and with marks of any number where it is refused before.
fn tried(table: u64) -> Tally {
    let records = drawn_records(table);
    let marks = drawn_marks(table);
    let right = one(agrees(table));
    let greater = marks | 2u64 << (table % 4 * 2);
    let over = one(leaves(table, 0, greater, 4, MARKS, records));
    let few = one(leaves(table, 0, marks, table % 4, MARKS, records));
    let many = one(leaves(table, 0, marks, 5, MARKS, records));
    let before = one(leaves(table, 1, marks, table % 6, LOCKED, records));
    joined(joined(right, over), joined(joined(few, many), before))
}

// The tables tried, and those on which `prune` disagrees.
pub fn pruned() -> Tally {
    each(TABLES, |table| tried(table))
}

// How many records of all tables stay with right marks.
pub fn records_kept() -> u64 {
    (0..TABLES).fold(0, |count, table| {
        count.wrapping_add(kept_of(table).count)
    })
}
