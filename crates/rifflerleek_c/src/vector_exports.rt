// The calls on bare vectors, exported (02, requests 6, 7 and 8).
ghost use Rattle.std.specs.Prelude.{◌≡◌, ◌↔◌};
ghost use Rattle.vectors.specs.Row.{row};
ghost use Rattle.range_search.specs.Range.{Ranged};
ghost use Rattle.checks.specs.Model.{judged};
ghost use Rattle.vector_calls.specs.Calls.{product_bit_of};
ghost use Rattle.vector_calls.specs.Witnesses.{witness_checks, Unsettles};
ghost use Rattle.vector_calls.specs.Ranges.{range_of, Absent};
ghost use Rattle.vector_calls.specs.RangeRuns.{RunsOn};
ghost use Rattle.rifflerleek.specs.Host.{bit_answer, four_refusal, FourAnswers, pair_of, range_answer, range_held};

use rifflerleek::{Answer, FourNumbers};

// One bit of the product of two vectors of one width: `result` of the answer is 0, 1, or 2 for X. The operands are chosen independently.
#[unsafe(no_mangle)]
pub extern "C" fn rifflerleek_product_bit(
    width: u32,
    mask_a: u32,
    value_a: u32,
    mask_b: u32,
    value_b: u32,
    bit: u32,
) -> Answer
    ensures { result ≡ bit_answer (product_bit_of width mask_a value_a mask_b value_b bit) }
{
    rifflerleek::rifflerleek_product_bit(width, mask_a, value_a, mask_b, value_b, bit)
}

// Two pairs of operands that two vectors of one width cover. With `first` and `second` of the answer the bit of the plain result is 0, with `third` and
// `fourth` it is 1. The operands are chosen independently.
#[unsafe(no_mangle)]
pub extern "C" fn rifflerleek_witnesses(
    kind: u32,
    width: u32,
    mask_a: u32,
    value_a: u32,
    mask_b: u32,
    value_b: u32,
    bit: u32,
) -> FourNumbers
    ensures refusals { FourAnswers (judged (witness_checks kind width mask_a value_a mask_b value_b bit)) result }
    ensures pairs { result.refusal ≡ 0 → Unsettles kind width mask_a value_a mask_b value_b bit (pair_of result.first result.second) (pair_of result.third result.fourth) }
{
    rifflerleek::rifflerleek_witnesses(kind, width, mask_a, value_a, mask_b, value_b, bit)
}

// The best vector covering all numbers between two ends that a vector covers: `first` and `second` of the answer are its mask and value, `third` and `fourth`
// the smallest and the largest of these numbers.
#[unsafe(no_mangle)]
pub extern "C" fn rifflerleek_range(
    width: u32,
    mask: u32,
    value: u32,
    low: u64,
    high: u64,
) -> FourNumbers
    ensures answer { result ≡ range_answer (range_of width mask value low high) }
    ensures best { result.refusal ≡ 0 → Ranged (row width mask value) low high (range_held result) }
    ensures empty { (result ≡ four_refusal 18 0) ↔ Absent width mask value low high }
    ensures runs { result.refusal ≡ 0 → RunsOn (row width mask value) low high (row width result.first result.second) }
{
    rifflerleek::rifflerleek_range(width, mask, value, low, high)
}
