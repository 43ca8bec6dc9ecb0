// The tables tried: every two of ten kinds with every choice of rows and pairs; at width 1 from every start, at width 2 from every start of the state rows.
ghost use Rattle.std.specs.Prelude.{◌≤◌};

use crate::agrees;
use crate::designs::{DESIGNS, STARTS, question};
use checks::refusals::{Reason, Refusal};
use clocks::settle;
use trials::counting::{Tally, each, joined, one};

// Whether a pair of unequal widths is refused for this reason, in a table with the first n words of a record that does not fit the widths either.
fn refuses(n: usize, reason: Reason) -> bool
    requires { n ≤ 6 }
{
    let width = [1u8, 2];
    let lock = [0u8; 2];
    let mut mask = [1u32, 0];
    let mut value = [0u32, 1];
    let words = [1u32, 1, 0, 0, 0, 0];
    let answer = settle(
        &width,
        &lock,
        &mut mask,
        &mut value,
        &words[0..n],
        &[0],
        &[1],
    );
    let due = Err(Refusal { reason, place: 0 });
    answer == due && mask[0] == 1 && value[1] == 1
}

// The tables of every design and two that are refused, without a record as 20 and with it as 9; and those on which `settle` disagrees.
pub fn settled() -> Tally {
    let refused = joined(one(refuses(0, Reason::Pairs)), one(refuses(6, Reason::Fit)));
    let tried = each(DESIGNS * STARTS, |n| {
        let small = agrees(question(1, n / STARTS, n % STARTS));
        let large = agrees(question(2, n / STARTS, n % STARTS));
        joined(one(small), one(large))
    });
    joined(refused, tried)
}
