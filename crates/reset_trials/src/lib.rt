// Small tables through `reset_bits`, each compared with plain enumeration of every set of bits that could be left unset.
#![tactic(auto)]

ghost use Rattle.std.specs.Prelude.{◌<◌};

use checks::refusals::{Reason, Refusal};
use oracle::numbers::{bit, byte, power, word};
use records::{record, result};
use resets::reset_bits;
use rows::{Rows, masks, values, with_last, with_unknown};

mod records; // records.rt: records that write row 3
pub mod rows; // rows.rt: four rows of 2 bits
pub mod sweeps; // sweeps.rt: the tables tried

// A table of such rows, of which rows 0 to 2 may be locked (bits 0 to 2), and two records of these kinds, which write row 3: the first has the operand rows 0 and
// 1, the second 3 and 2. A bit of row 3 is named.
#[derive(Clone, Copy)]
struct Question {
    rows: Rows,
    locked: u64,
    first: u64,
    second: u64,
    bit: u64,
}

// How the bit named ends, where it is known.
fn ends(q: Question, set: u64) -> Option<u32>
    requires { q.bit < 2 }
{
    let rows = with_unknown(q.rows, set);
    let made = with_last(rows, result(q.first, rows, 0, 1));
    let end = result(q.second, made, 3, 2);
    if bit(end.mask as u64, q.bit) == 1 {
        return None;
    }
    Some(word(bit(end.value as u64, q.bit)))
}

// The bits of row i where it is open.
fn open_bits(q: Question, i: u64) -> u64
    requires { i < 4 }
{
    if bit(q.locked, i) == 1 {
        return 0;
    }
    3 * power(2 * i)
}

// The known bits of open rows.
fn visited(q: Question) -> u64 {
    let open = open_bits(q, 0) | open_bits(q, 1) | open_bits(q, 2) | open_bits(q, 3);
    (open | q.rows.mask) ^ q.rows.mask
}

// The bits that become X, one after another, where the bit named then ends as before.
fn pass(q: Question, known: u64, value: u32) -> u64
    requires { q.bit < 2 }
{
    let mut set: u64 = 0;
    for n in 0..8 {
        let more = set | power(n);
        if bit(known, n) == 1 && ends(q, more) == Some(value) {
            set = more;
        }
    }
    set
}

// Whether no greater set of these bits leaves the bit named as it is.
fn is_greatest(q: Question, known: u64, set: u64, value: u32) -> bool
    requires { q.bit < 2 }
{
    !(0..256).any(|more| {
        more & set == set && more | known == known && more != set && ends(q, more) == Some(value)
    })
}

// Whether `reset_bits` answers with the bit's value, or refuses an unknown one, and leaves the rows with this set of bits X.
fn leaves(q: Question, value: Option<u32>, set: u64) -> bool {
    let width = [2u8; 4];
    let lock = [
        byte(bit(q.locked, 0)),
        byte(bit(q.locked, 1)),
        byte(bit(q.locked, 2)),
        0,
    ];
    let first = record(q.first, 0, 1);
    let second = record(q.second, 3, 2);
    let words = [
        first[0], first[1], first[2], first[3], first[4], first[5], second[0], second[1],
        second[2], second[3], second[4], second[5],
    ];
    let mut end_mask = masks(q.rows);
    let mut end_value = values(q.rows);
    let answer = reset_bits(
        &width,
        &lock,
        &mut end_mask,
        &mut end_value,
        &words,
        3,
        word(q.bit),
    );
    let left = with_unknown(q.rows, set);
    let due = value.ok_or(Refusal {
        reason: Reason::Unknown,
        place: 0,
    });
    answer == due && end_mask == masks(left) && end_value == values(left)
}

// Whether `reset_bits` and the enumeration agree, and no greater set of bits could be left unset.
fn agrees(q: Question) -> bool
    requires { q.bit < 2 }
{
    let Some(value) = ends(q, 0) else {
        return leaves(q, None, 0);
    };
    let known = visited(q);
    let set = pass(q, known, value);
    leaves(q, Some(value), set) && is_greatest(q, known, set, value)
}
