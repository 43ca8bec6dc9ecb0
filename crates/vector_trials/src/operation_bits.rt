// Every bit of the sum, the difference or the product of two vectors, through the calls on bare vectors: whether what is answered is right, by enumeration
// and plain arithmetic. `product_bit` works out a column by algorithm 2, which `mul` does only where no choice that it tries settles the column.
ghost use Rattle.std.specs.Prelude.{◌≤◌, ◌<◌};
ghost use Rattle.bits.specs.Limits.{width_limit};

use checks::refusals::{Reason, Refusal};
use oracle::choices::{Row, covers, enumerated};
use oracle::numbers::{bit, power, word};
use oracle::plain::plain;
use oracle::shapes::Shape;
use trials::counting::{Tally, each, one};
use vector_calls::{product_bit, witnesses};
use vectors::OutputBit;
use witness_search::Pair;

// Bit k of the row.
fn bit_of(row: Row, k: u64) -> OutputBit
    requires { k ≤ width_limit }
{
    if bit(row.mask as u64, k) == 1 {
        return OutputBit::Unknown;
    }
    if bit(row.value as u64, k) == 1 {
        OutputBit::One
    } else {
        OutputBit::Zero
    }
}

// Whether the vectors cover the operands, and bit k of the plain result is d.
fn makes(s: Shape, a: Row, b: Row, k: u64, operands: Pair, d: u64) -> bool
    requires { k ≤ width_limit }
{
    let x = operands.a as u64;
    let y = operands.b as u64;
    x < power(s.wa)
        && y < power(s.wb)
        && covers(s.wa, a, x)
        && covers(s.wb, b, y)
        && bit(plain(s, x, y, 0), k) == d
}

// Whether bit k of the row is unknown and the answer has two pairs that make it 0 and 1, or it is known and refused as such.
fn is_witnessed(
    answer: Result<(Pair, Pair), Refusal>,
    s: Shape,
    a: Row,
    b: Row,
    right: Row,
    k: u64,
) -> bool
    requires { k ≤ width_limit }
{
    let unknown = bit(right.mask as u64, k) == 1;
    match answer {
        Ok((zero, one)) => { unknown && makes(s, a, b, k, zero, 0) && makes(s, a, b, k, one, 1) }
        Err(r) => !unknown && r.reason == Reason::Known && r.place == 0,
    }
}

// Every bit through `product_bit`.
pub fn product_bits(s: Shape, a: Row, b: Row) -> Tally {
    let right = enumerated(s, a, b, Row { mask: 0, value: 0 });
    each(s.wa, |k| {
        let answer = product_bit(word(s.wa), a.mask, a.value, b.mask, b.value, word(k));
        one(answer == Ok(bit_of(right, k)))
    })
}

// Every bit through `witnesses`.
pub fn witnessed_bits(s: Shape, a: Row, b: Row) -> Tally {
    let right = enumerated(s, a, b, Row { mask: 0, value: 0 });
    each(s.wa, |k| {
        let answer = witnesses(
            word(s.kind),
            word(s.wa),
            a.mask,
            a.value,
            b.mask,
            b.value,
            word(k),
        );
        one(is_witnessed(answer, s, a, b, right, k))
    })
}
