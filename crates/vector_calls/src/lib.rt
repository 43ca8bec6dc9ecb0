// Calls on bare vectors, which stand in no table (02, requests 6, 7 and 8): every refusal has place 0.
#![tactic(auto)]

ghost use Rattle.std.specs.Prelude.{◌≡◌, ◌↔◌};
ghost use Rattle.vectors.specs.Row.{row};
ghost use Rattle.witness_search.specs.declared.Pair.{Pair};
ghost use Rattle.range_search.specs.declared.Range.{Range};
ghost use Rattle.range_search.specs.Range.{Ranged};
ghost use Rattle.checks.specs.Check.{done, refused};
ghost use Rattle.checks.specs.Model.{answer_model, judged};
ghost use Rattle.vector_calls.specs.Calls.{product_bit_of};
ghost use Rattle.vector_calls.specs.Witnesses.{witness_checks, Unsettles};
ghost use Rattle.vector_calls.specs.Ranges.{range_of, Absent};
ghost use Rattle.vector_calls.specs.RangeRuns.{RunsOn};
ghost use Rattle.vector_calls.specs.Model.{refusal_in};

use checks::refusals::{Reason, Refusal};
use inputs::{check_operation, check_product_bit, check_range};
use products::product_bit_unchecked;
use range_search::{Range, in_range};
use vectors::{OutputBit, Vector};
use witness_search::arithmetic::Arithmetic;
use witness_search::{Operands, Pair, operation_bit, witness};

mod inputs; // inputs.rt: what the calls check first

// One bit of the product of two vectors, which are chosen from independently, also where they are equal.
pub fn product_bit(
    width: u32,
    ma: u32,
    va: u32,
    mb: u32,
    vb: u32,
    bit: u32,
) -> Result<OutputBit, Refusal>
    ensures { answer_model result ≡ product_bit_of width ma va mb vb bit }
{
    check_product_bit(width, ma, va, mb, vb, bit)?;
    let a = Vector {
        mask: ma,
        value: va,
    };
    let b = Vector {
        mask: mb,
        value: vb,
    };
    Ok(product_bit_unchecked(a, b, bit))
}

// Two pairs of operands that two vectors cover: with the first a bit of their sum, difference or product is 0, with the second 1. The vectors are chosen from
// independently, also where they are equal.
pub fn witnesses(
    kind: u32,
    width: u32,
    ma: u32,
    va: u32,
    mb: u32,
    vb: u32,
    bit: u32,
) -> Result<(Pair, Pair), Refusal>
    ensures refusals { refusal_in (answer_model result) ≡ judged (witness_checks kind width ma va mb vb bit) }
    ensures pairs { (zero one : Pair) → answer_model result ≡ done (zero, one) → Unsettles kind width ma va mb vb bit zero one }
{
    check_operation(kind, width, ma, va, mb, vb, bit)?;
    let a = Vector {
        mask: ma,
        value: va,
    };
    let b = Vector {
        mask: mb,
        value: vb,
    };
    let operands = Operands { a, b };
    let operation = Arithmetic::try_from(kind).unwrap();
    let OutputBit::Unknown = operation_bit(operation, width, operands, bit) else {
        return Err(Refusal {
            reason: Reason::Known,
            place: 0,
        });
    };
    let zero = witness(operation, width, operands, bit, 0);
    let one = witness(operation, width, operands, bit, 1);
    Ok((zero, one))
}

// The best vector covering all numbers that lie between the ends, ends included, and that the vector covers, with the smallest and the largest of them.
pub fn range(width: u32, mask: u32, value: u32, low: u64, high: u64) -> Result<Range, Refusal>
    ensures answer { answer_model result ≡ range_of width mask value low high }
    ensures best { (x : Range) → answer_model result ≡ done x → Ranged (row width mask value) low high x }
    ensures empty { (answer_model result ≡ refused 18 0) ↔ Absent width mask value low high }
    ensures runs { (x : Range) → answer_model result ≡ done x → RunsOn (row width mask value) low high (row width x.mask x.value) }
{
    check_range(width, mask, value, low, high)?;
    in_range(width, mask, value, low as u32, high as u32).ok_or(Refusal {
        reason: Reason::Empty,
        place: 0,
    })
}
