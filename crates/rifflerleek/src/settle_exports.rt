// Clock after clock until it settles, and the ordering of two states, exported (02, request 12).
ghost use Rattle.std.specs.Prelude.{◌≡◌};
ghost use Rattle.checks.specs.Model.{lent};
ghost use Rattle.steps.specs.States.{held};
ghost use Rattle.orders.specs.declared.Order.{Order};
ghost use Rattle.orders.specs.Order.{compare_of, OrderMeans};
ghost use Rattle.rounds.specs.Clock.{pairs_of};
ghost use Rattle.rounds.specs.Settle.{settle_of, Settles};
ghost use Rattle.rifflerleek.specs.Host.{outcome, host_leaves, order_number, order_answer};

use crate::{Answer, ORDER_AROUND, ORDER_EQUAL, ORDER_INSIDE, ORDER_NONE, done, refused};
use orders::Order;

// Leaves the rows as the last round leaves them: `result` of the answer is the number of rounds.
pub fn rifflerleek_settle(
    width: &[u8],
    lock: &[u8],
    mask: &mut [u32],
    value: &mut [u32],
    words: &[u32],
    states: &[u32],
    nexts: &[u32],
) -> Answer
    ensures effect { let table = lent width.now lock.now mask.old value.old words.now in
        outcome result (held mask.new value.new) ≡ host_leaves (settle_of table states.now nexts.now) }
    ensures settles { let table = lent width.now lock.now mask.old value.old words.now in
        let pairs = pairs_of states.now nexts.now in
        (result.refusal ≡ 0 → Settles table pairs result.result (held mask.new value.new)) }
{
    Answer::from(clocks::settle(width, lock, mask, value, words, states, nexts))
}

// An order as a number.
fn order_number(o: Order) -> usize
    ensures { result ≡ order_number o }
{
    match o {
        Order::Equal => ORDER_EQUAL,
        Order::Inside => ORDER_INSIDE,
        Order::Around => ORDER_AROUND,
        Order::NoneOfThese => ORDER_NONE,
    }
}

// How the first of two states stands to the second: `result` of the answer is 0 for equal, 1 for inside, 2 for around, 3 for none of these.
pub fn rifflerleek_compare_states(
    width: &[u8],
    mask_1: &[u32],
    value_1: &[u32],
    mask_2: &[u32],
    value_2: &[u32],
) -> Answer
    ensures answer { let first = held mask_1.now value_1.now in
        let second = held mask_2.now value_2.now in
        result ≡ order_answer (compare_of width.now first second) }
    ensures means { let first = held mask_1.now value_1.now in
        let second = held mask_2.now value_2.now in
        ((o : Order) → result.refusal ≡ 0 → result.result ≡ order_number o → OrderMeans width.now first second o) }
{
    match orders::compare_states(width, mask_1, value_1, mask_2, value_2) {
        Ok(o) => done(order_number(o), 0),
        Err(r) => refused(r),
    }
}
