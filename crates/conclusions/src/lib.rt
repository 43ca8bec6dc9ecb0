// Which start bits a conclusion rests on (02, request 9): conclusions, and the parts of a trial.
#![tactic(auto)]

ghost use Rattle.std.specs.Prelude.{◌≡◌, ◌&&◌, List, ℕ, ◌<◌, eqb, length};
ghost use Rattle.bits.specs.Bit.{bit};
ghost use Rattle.steps.specs.States.{held};
ghost use Rattle.conclusions.specs.Pass as Pass;
ghost use Rattle.conclusions.specs.Pass.{position};

// A conclusion: a bit of a row that a full run leaves known, and its value.
#[derive(Clone, Copy)]
pub struct Conclusion {
    pub row: usize,
    pub at: u32,
    pub value: u32,
}

// Bit k of a word.
pub fn bit_at(x: u32, k: u32) -> u32
    requires { k < 32 }
    ensures { result ≡ bit x k }
{
    (x >> k) & 1
}

// Bit k of row i becomes X: its mask bit is 1, its value bit 0.
pub fn forget(mask: &mut [u32], value: &mut [u32], i: usize, k: u32)
    requires { (i < length mask.old) × (i < length value.old) × (k < 32) }
    ensures { let start = held mask.old value.old in
        ((widths : List ℕ) → held mask.new value.new ≡ Pass.forget widths start (position i k)) }
{
    let one = 1u32 << k;
    mask[i] |= one;
    value[i] = (value[i] | one) ^ one;
}

// Whether the conclusion is there in a row's mask and value.
pub fn holds(m: u32, v: u32, c: Conclusion) -> bool
    requires { c.at < 32 }
    ensures { result ≡ (eqb (bit m c.at) 0 && eqb (bit v c.at) c.value) }
{
    bit_at(m, c.at) == 0 && bit_at(v, c.at) == c.value
}
