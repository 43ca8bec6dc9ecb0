// What kernels exchange: a vector's two planes, and one output bit.
#![tactic(auto)]

ghost use Rattle.std.specs.Prelude.{◌≡◌, ℕ, ◌/◌, ◌%◌, ◌^◌, ◌<◌};
ghost use Rattle.vectors.specs.Row.{row_of};
ghost use Rattle.vectors.specs.OutputBits.{output_bit};

// Mask and value of a vector; the width stands beside it.
#[derive(Clone, Copy, PartialEq, Eq)]
pub struct Vector {
    pub mask: u32,
    pub value: u32,
}

// One bit of a result: known as 0, known as 1, or unknown.
#[derive(Clone, Copy, PartialEq, Eq)]
pub enum OutputBit {
    Zero,
    One,
    Unknown,
}

// Bit k of a vector, whatever its width.
#[tactic(auto, using(crate::proofs::Told::told_unknown, crate::proofs::Told::told_one, crate::proofs::Told::told_zero))]
pub fn bit_of(x: Vector, k: u32) -> OutputBit
    requires { k < 32 }
    ensures { (w : ℕ) → result ≡ output_bit (row_of w x) k }
{
    if (x.mask >> k) & 1 == 1 {
        return OutputBit::Unknown;
    }
    if (x.value >> k) & 1 == 1 {
        return OutputBit::One;
    }
    OutputBit::Zero
}

// A vector as one word: a function hands a word over in a register, a vector through memory.
impl From<Vector> for u64 {
    ghost from_gives = { λ v r. (r % 2 ^ 32 ≡ v.mask) × (r / 2 ^ 32 ≡ v.value) };

    fn from(v: Vector) -> u64 {
        (v.mask as u64) + (v.value as u64) * 4294967296
    }
}

// The vector of such a word.
impl From<u64> for Vector {
    ghost from_gives = { λ r v. (v.mask ≡ r % 2 ^ 32) × (v.value ≡ r / 2 ^ 32) };

    fn from(r: u64) -> Vector {
        Vector {
            mask: (r % 4294967296) as u32,
            value: (r / 4294967296) as u32,
        }
    }
}
