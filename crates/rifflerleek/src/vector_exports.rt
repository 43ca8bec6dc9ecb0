// The calls on bare vectors, exported (02, requests 6, 7 and 8).
ghost use Rattle.std.specs.Prelude.{◌≡◌, ◌↔◌};
ghost use Rattle.vectors.specs.Row.{row};
ghost use Rattle.range_search.specs.Range.{Ranged};
ghost use Rattle.checks.specs.Model.{judged, reason_number};
ghost use Rattle.vector_calls.specs.Calls.{product_bit_of};
ghost use Rattle.vector_calls.specs.Witnesses.{witness_checks, Unsettles};
ghost use Rattle.vector_calls.specs.Ranges.{range_of, Absent};
ghost use Rattle.vector_calls.specs.RangeRuns.{RunsOn};
ghost use Rattle.rifflerleek.specs.Host.{bit_number, bit_answer, four_refusal, FourAnswers, pair_of, range_answer, range_held};

use crate::{Answer, DONE, UNKNOWN_BIT, done, refused};
use checks::refusals::Refusal;
use vectors::OutputBit;

// A bit as a number: 0, 1, or that of X.
fn bit_number(b: OutputBit) -> usize
    ensures { result ≡ bit_number b }
{
    match b {
        OutputBit::Zero => 0,
        OutputBit::One => 1,
        OutputBit::Unknown => UNKNOWN_BIT,
    }
}

// One bit of the product of two vectors of one width: `result` of the answer is 0, 1, or 2 for X. The operands are chosen independently.
pub fn rifflerleek_product_bit(
    width: u32,
    mask_a: u32,
    value_a: u32,
    mask_b: u32,
    value_b: u32,
    bit: u32,
) -> Answer
    ensures { result ≡ bit_answer (product_bit_of width mask_a value_a mask_b value_b bit) }
{
    match vector_calls::product_bit(width, mask_a, value_a, mask_b, value_b, bit) {
        Ok(b) => done(bit_number(b), 0),
        Err(r) => refused(r),
    }
}

// What a call answers that gives four numbers: refusal 0 and the numbers, or the refusal's number and its place.
#[repr(C)]
#[derive(Clone, Copy)]
pub struct FourNumbers {
    pub refusal: u32,
    pub place: usize,
    pub first: u32,
    pub second: u32,
    pub third: u32,
    pub fourth: u32,
}

// A refusal of such a call.
fn no_numbers(why: Refusal) -> FourNumbers
    ensures { result ≡ four_refusal (reason_number why.reason) why.place }
{
    FourNumbers {
        refusal: why.reason.number(),
        place: why.place,
        first: 0,
        second: 0,
        third: 0,
        fourth: 0,
    }
}

// Two pairs of operands that two vectors of one width cover. With `first` and `second` of the answer the bit of the plain result is 0, with `third` and
// `fourth` it is 1. The operands are chosen independently.
pub fn rifflerleek_witnesses(
    kind: u32,
    width: u32,
    mask_a: u32,
    value_a: u32,
    mask_b: u32,
    value_b: u32,
    bit: u32,
) -> FourNumbers
    ensures refusals { FourAnswers (judged (witness_checks kind width mask_a value_a mask_b value_b bit)) result }
    ensures pairs { result.refusal ≡ 0 → Unsettles kind width mask_a value_a mask_b value_b bit (pair_of result.first result.second) (pair_of result.third result.fourth) }
{
    match vector_calls::witnesses(kind, width, mask_a, value_a, mask_b, value_b, bit) {
        Ok((zero, one)) => FourNumbers {
            refusal: DONE,
            place: 0,
            first: zero.a,
            second: zero.b,
            third: one.a,
            fourth: one.b,
        },
        Err(r) => no_numbers(r),
    }
}

// The best vector covering all numbers between two ends that a vector covers: `first` and `second` of the answer are its mask and value, `third` and `fourth`
// the smallest and the largest of these numbers.
pub fn rifflerleek_range(width: u32, mask: u32, value: u32, low: u64, high: u64) -> FourNumbers
    ensures answer { result ≡ range_answer (range_of width mask value low high) }
    ensures best { result.refusal ≡ 0 → Ranged (row width mask value) low high (range_held result) }
    ensures empty { (result ≡ four_refusal 18 0) ↔ Absent width mask value low high }
    ensures runs { result.refusal ≡ 0 → RunsOn (row width mask value) low high (row width result.first result.second) }
{
    match vector_calls::range(width, mask, value, low, high) {
        Ok(x) => FourNumbers {
            refusal: DONE,
            place: 0,
            first: x.mask,
            second: x.value,
            third: x.smallest,
            fourth: x.largest,
        },
        Err(r) => no_numbers(r),
    }
}
