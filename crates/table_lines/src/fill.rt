// Reading the lines after the opening of a text in two passes: the first judges them all, the second fills the lent slices (01, "Calls": read).
ghost use Rattle.std.specs.Prelude.{◌≤◌, length};
ghost use Rattle.operations.specs.Record.{words_of};
ghost use Rattle.grammar.specs.Limits.{text_limit};
ghost use Rattle.letters.specs.Model.{edition_model};
ghost use Rattle.printing.specs.Put.{Holds, Put};
ghost use Rattle.table_lines.specs.Fill.{Surveyed, RowsWait, RowsRead, RecordsWait, RecordsRead};

use grammar::LF;
use letters::Edition;
use lines::cut::end_of;
use lines::line::{Found, line};
use operations::{RECORD_WORDS, Record, put_record};

// The number of the first bad line, or 0 and the counts of row lines and record lines.
#[derive(Clone, Copy)]
pub struct Tally {
    pub bad: usize,
    pub rows: usize,
    pub records: usize,
}

// The first pass, over lines of which the first has the number `first`.
pub fn survey(e: Edition, text: &[u8], first: usize) -> Tally
    requires { (1 ≤ first) × (first ≤ text_limit) × (length text.now ≤ text_limit) }
    ensures { Surveyed (edition_model e) first text.now result.bad result.rows result.records }
{
    let len = text.len();
    let mut at: usize = 0;
    let mut n = first;
    let mut rows: usize = 0;
    let mut records: usize = 0;
    while at < len {
        let end = end_of(text, at, LF);
        if end == len {
            return Tally {
                bad: n,
                rows: 0,
                records: 0,
            };
        }
        let l = line(e, &text[at..end]);
        match l {
            Found::Row(_, _, _, _) => {
                if 0 < records {
                    return Tally {
                        bad: n,
                        rows: 0,
                        records: 0,
                    };
                }
                rows += 1;
            }
            Found::Record(_) => {
                records += 1;
            }
            Found::Outside => {
                return Tally {
                    bad: n,
                    rows: 0,
                    records: 0,
                };
            }
        }
        at = end + 1;
        n += 1;
    }
    Tally {
        bad: 0,
        rows,
        records,
    }
}

// Puts the rows of a text, of which there are `n`, into the slices, and answers where the first record line begins.
pub fn fill_rows(
    e: Edition,
    text: &[u8],
    n: usize,
    width: &mut [u8],
    lock: &mut [u8],
    mask: &mut [u32],
    value: &mut [u32],
) -> usize
    requires { RowsWait (edition_model e) text.now n width.old lock.old mask.old value.old }
    ensures { RowsRead (edition_model e) text.now result width.old width.new lock.old lock.new
        mask.old mask.new value.old value.new }
{
    let mut at: usize = 0;
    for k in 0..n {
        let end = end_of(text, at, LF);
        let f = line(e, &text[at..end]);
        match f {
            Found::Row(l, w, m, v) => {
                width[k] = w as u8;
                lock[k] = l as u8;
                mask[k] = m;
                value[k] = v;
            }
            Found::Record(_) => {
                return at;
            }
            Found::Outside => {
                return at;
            }
        }
        at = end + 1;
    }
    at
}

// Puts the words of a record into the slice from `at` on.
fn put_words(words: &mut [u32], at: usize, r: Record) -> usize
    requires { Holds words.old at (words_of r) }
    ensures { Put words.old words.new at result (words_of r) }
{
    put_record(words, at, r);
    at + RECORD_WORDS
}

// Puts the words of the record lines from `from` on, `n` lines, into the slice.
pub fn fill_records(e: Edition, text: &[u8], from: usize, n: usize, words: &mut [u32])
    requires { RecordsWait (edition_model e) text.now from n words.old }
    ensures { RecordsRead (edition_model e) text.now from words.old words.new }
{
    let mut at = from;
    let mut i: usize = 0;
    for k in 0..n {
        let end = end_of(text, at, LF);
        let f = line(e, &text[at..end]);
        match f {
            Found::Row(_, _, _, _) => {
                return;
            }
            Found::Record(r) => {
                i = put_words(words, i, r);
            }
            Found::Outside => {
                return;
            }
        }
        at = end + 1;
    }
}
