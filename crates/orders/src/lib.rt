// The ordering of two whole states, row by row (02, request 12).
#![tactic(auto)]

ghost use Rattle.std.specs.Prelude.{◌≡◌};
ghost use Rattle.checks.specs.Check.{done};
ghost use Rattle.checks.specs.Model.{answer_model};
ghost use Rattle.steps.specs.States.{held};
ghost use Rattle.steps.specs.Encoding.{OwnRows};
ghost use Rattle.orders.specs.declared.Order.{Order};
ghost use Rattle.orders.specs.Order.{order_of, compare_of, OrderMeans};

use checks::refusals::Refusal;
use inputs::check_states;
use rows::{equal_states, inside_states};

mod inputs; // inputs.rt: what compare_states checks first
pub mod rows; // rows.rt: vectors and rows compared

// How the first state stands to the second: equal to it, inside it, around it, or none of these.
#[derive(Clone, Copy, PartialEq, Eq)]
pub enum Order {
    Equal,
    Inside,
    Around,
    NoneOfThese,
}

// The order of two states that passed the checks.
fn order_of(width: &[u8], ma: &[u32], va: &[u32], mb: &[u32], vb: &[u32]) -> Order
    requires { OwnRows width.now ma.now va.now × OwnRows width.now mb.now vb.now }
    ensures { result ≡ order_of width.now (held ma.now va.now) (held mb.now vb.now) }
{
    if equal_states(width, ma, va, mb, vb) {
        return Order::Equal;
    }
    if inside_states(width, ma, va, mb, vb) {
        return Order::Inside;
    }
    if inside_states(width, mb, vb, ma, va) {
        return Order::Around;
    }
    Order::NoneOfThese
}

// How the first of two states stands to the second, row by row.
pub fn compare_states(
    width: &[u8],
    mask_1: &[u32],
    value_1: &[u32],
    mask_2: &[u32],
    value_2: &[u32],
) -> Result<Order, Refusal>
    ensures answer { let first = held mask_1.now value_1.now in
        let second = held mask_2.now value_2.now in
        answer_model result ≡ compare_of width.now first second }
    ensures means { let first = held mask_1.now value_1.now in
        let second = held mask_2.now value_2.now in
        ((o : Order) → answer_model result ≡ done o → OrderMeans width.now first second o) }
{
    check_states(width, mask_1, value_1, mask_2, value_2)?;
    Ok(order_of(width, mask_1, value_1, mask_2, value_2))
}
