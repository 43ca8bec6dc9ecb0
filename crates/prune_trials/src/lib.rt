// Small tables through `prune` (02, request 13): the records that stay are compared with those found by following forward what each record writes, and the
// marked rows after a full run of them with those after a full run of all.
// A table has four rows, of the widths 1, 1, 1 and 2, and four records of any kind.
#![tactic(auto)]

use checks::refusals::Refusal;
use drawing::{drawn_marks, drawn_records, drawn_rows};
use followed::{Kept, staying};
use oracle::numbers::{byte, word};
use pruning::prune;
use records::words_of;
use reset_trials::rows::{masks, values};
use tables::run;

mod drawing; // drawing.rt: the tables by their numbers
mod followed; // followed.rt: the records that stay
mod records; // records.rt: the words of records
pub mod sweeps; // sweeps.rt: the tables tried

// The marks of four rows and of one more, from two bits each.
fn marks_of(marks: u64) -> [u8; 5] {
    [
        byte(marks % 4),
        byte(marks / 4 % 4),
        byte(marks / 16 % 4),
        byte(marks / 64 % 4),
        byte(marks / 256 % 4),
    ]
}

// What `prune` answers on the rows of a table, which all have this lock.
fn answered(table: u64, lock: u8, words: &mut [u32], marks: &[u8]) -> Result<usize, Refusal> {
    let width = [1u8, 1, 1, 2];
    let lock = [lock; 4];
    let start = drawn_rows(table);
    let mask = masks(start);
    let value = values(start);
    prune(&width, &lock, &mask, &value, words, marks)
}

// Whether `prune`, lent the first n of these marks, gives this answer and leaves the words of these records.
fn leaves(
    table: u64,
    lock: u8,
    marks: u64,
    n: u64,
    due: Result<usize, Refusal>,
    records: u64,
) -> bool {
    let mut words = words_of(drawn_records(table));
    let marks = marks_of(marks);
    let n = (n % 6) as usize;
    let answer = answered(table, lock, &mut words, &marks[0..n]);
    answer == due && words == words_of(records)
}

// Runs the first n of these records.
fn run_first(mask: &mut [u32; 4], value: &mut [u32; 4], records: u64, n: u64) {
    let width = [1u8, 1, 1, 2];
    let lock = [0u8; 4];
    let words = words_of(records);
    let last = (n % 5) as usize;
    let end = 6 * last;
    let _ = run(&width, &lock, mask, value, &words[0..end], 0, last);
}

// Four rows in one number, two bits each.
fn packed(rows: [u32; 4]) -> u32 {
    rows[0] | rows[1] << 2 | rows[2] << 4 | rows[3] << 6
}

// The rows of a table after a run of the first n of these records: the masks above the values.
fn ran(table: u64, records: u64, n: u64) -> u32 {
    let start = drawn_rows(table);
    let mut mask = masks(start);
    let mut value = values(start);
    run_first(&mut mask, &mut value, records, n);
    packed(mask) << 8 | packed(value)
}

// Whether full runs of all records and of those that stay leave the marked rows the same.
fn same_marked(table: u64, kept: Kept) -> bool {
    let changed = ran(table, drawn_records(table), 4) ^ ran(table, kept.records, kept.count);
    changed & word(drawn_marks(table) % 256 * 0b11_00000011) == 0
}

// The records of a table that stay.
fn kept_of(table: u64) -> Kept {
    staying(drawn_records(table), drawn_marks(table))
}

// Whether `prune` keeps these records, and a full run of them leaves the marked rows as that of all does.
fn agrees(table: u64) -> bool {
    let kept = kept_of(table);
    leaves(
        table,
        0,
        drawn_marks(table),
        4,
        Ok(kept.count as usize),
        kept.records,
    ) && same_marked(table, kept)
}
