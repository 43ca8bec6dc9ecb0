// The records that stay, by following forward what each record writes: up to a record that stays and reads it, or to the end.
// Records stand in one number as records.rt has them, and a set of rows has two bits for each row.
ghost use Rattle.std.specs.Prelude.{◌<◌};

use crate::records::word_of;
use oracle::numbers::{bit, power, truth};
use oracle::shapes::{LOAD, STORE, uses_condition, uses_second};

// Records that stay: how many, and what they are once they have moved down.
#[derive(Clone, Copy)]
pub struct Kept {
    pub count: u64,
    pub records: u64,
}

// The n rows from a row on.
fn span(base: u64, n: u64) -> u64 {
    let from = base % 4 * 2;
    (power(from + n % 4 * 2) - 1) ^ (power(from) - 1)
}

// The rows that the first record writes, or may write.
fn written(r: u64) -> u64 {
    if word_of(r, 0) == STORE {
        return span(word_of(r, 5), word_of(r, 4));
    }
    span(word_of(r, 1), 1)
}

// Of these rows those that it does not surely write.
fn left(r: u64, rows: u64) -> u64 {
    if word_of(r, 0) == STORE {
        return rows;
    }
    rows & (written(r) ^ 0b11111111)
}

// The rows that it reads. What stands in the cells of a store passes through, and is not counted.
fn read(r: u64) -> u64 {
    let kind = word_of(r, 0);
    let a = span(word_of(r, 2), 1);
    if kind == LOAD {
        return a | span(word_of(r, 5), word_of(r, 4));
    }
    let b = span(word_of(r, 3), truth(uses_second(kind)));
    a | b | span(word_of(r, 5), truth(uses_condition(kind)))
}

// Whether what record j writes is read by a record after it that stays, or stands in a marked row at the end.
fn feeds(records: u64, stay: u64, marks: u64, j: u64) -> bool
    requires { j < 4 }
{
    let mut rows = written(records >> (16 * j));
    for k in j + 1..4 {
        let r = records >> (16 * k);
        if bit(stay, k) == 1 {
            if rows & read(r) != 0 {
                return true;
            }
            rows = left(r, rows);
        }
    }
    rows & marks != 0
}

// The records that stay, the last one first, since whether a record feeds anything depends on the records after it.
pub fn staying(records: u64, marks: u64) -> Kept {
    let mut kept = Kept {
        count: 0,
        records: 0,
    };
    let mut stay: u64 = 0;
    for j in (0..4).rev() {
        if feeds(records, stay, marks, j) {
            stay |= power(j);
            kept = Kept {
                count: kept.count.wrapping_add(1),
                records: kept.records << 16 | (records >> (16 * j)) % 65536,
            };
        }
    }
    kept
}
