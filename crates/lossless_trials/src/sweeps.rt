// The tables tried.
use crate::agrees;
use trials::counting::{Tally, each, one};

// The tables drawn, and those on which run and the plain runs disagree.
pub fn lossless() -> Tally {
    each(16384, |number| one(agrees(number)))
}
