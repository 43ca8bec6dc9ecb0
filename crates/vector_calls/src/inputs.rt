// What the calls on bare vectors check first (02, requests 6, 7 and 8): every refusal has place 0.
ghost use Rattle.std.specs.Prelude.{◌≡◌, ◌≤◌};
ghost use Rattle.bits.specs.Limits.{width_limit};
ghost use Rattle.checks.specs.Check.{placed};
ghost use Rattle.checks.specs.Model.{verdict_model, judged};
ghost use Rattle.vector_calls.specs.Calls.{product_bit_checks};
ghost use Rattle.vector_calls.specs.Witnesses.{kind_faults, operation_faults};
ghost use Rattle.vector_calls.specs.Ranges.{end_faults, input_faults};

use checks::refusals::Reason;
use checks::rows::{check_bit, check_two_vectors, check_vector, check_width};
use checks::{Verdict, first_refusal, refuse};
use witness_search::is_add_sub_mul;

// What product_bit refuses.
pub fn check_product_bit(width: u32, ma: u32, va: u32, mb: u32, vb: u32, bit: u32) -> Verdict
    ensures { verdict_model result ≡ judged (product_bit_checks width ma va mb vb bit) }
{
    let vectors = check_two_vectors(width, ma, va, mb, vb, 0);
    let number = check_bit(width, bit, 0);
    first_refusal(vectors, number)
}

// Check 6: a kind other than add, sub and mul.
fn check_kind(kind: u32) -> Verdict
    ensures { verdict_model result ≡ judged (placed 0 (kind_faults kind)) }
{
    if is_add_sub_mul(kind) {
        return Ok(());
    }
    refuse(Reason::Kind, 0)
}

// What witnesses refuses before it looks at the bit.
pub fn check_operation(
    kind: u32,
    width: u32,
    ma: u32,
    va: u32,
    mb: u32,
    vb: u32,
    bit: u32,
) -> Verdict
    ensures { verdict_model result ≡ judged (placed 0 (operation_faults kind width ma va mb vb bit)) }
{
    let operands = check_two_vectors(width, ma, va, mb, vb, 0);
    let operation = check_kind(kind);
    let bit_number = check_bit(width, bit, 0);
    first_refusal(operands, first_refusal(operation, bit_number))
}

// Check 17 of two ends at a width that passed check 4. Where the ends are in order, both are below 2^w if the high one is.
#[tactic(auto, using(crate::proofs::RangeClaims::exchanged_refused))]
fn check_ends(width: u32, low: u64, high: u64) -> Verdict
    requires { (1 ≤ width) × (width ≤ width_limit) }
    ensures { verdict_model result ≡ judged (placed 0 (end_faults width low high)) }
{
    if high < low {
        return refuse(Reason::Ends, 0);
    }
    if 1u64 << width <= high {
        return refuse(Reason::Ends, 0);
    }
    Ok(())
}

// Checks 4, 5 and 17.
pub fn check_range(width: u32, mask: u32, value: u32, low: u64, high: u64) -> Verdict
    ensures { verdict_model result ≡ judged (placed 0 (input_faults width mask value low high)) }
{
    check_width(width, 0)?;
    let vector = check_vector(width, mask, value, 0);
    let ends = check_ends(width, low, high);
    first_refusal(vector, ends)
}
