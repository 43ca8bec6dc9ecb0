// The kinds of which operands are sought, by name.
ghost use Rattle.witness_search.specs.Witness.{NamesArithmetic};

// A sum, a difference or a product.
#[derive(Clone, Copy, PartialEq, Eq)]
pub enum Arithmetic {
    Add,
    Sub,
    Mul,
}

// The number of another kind, or of none.
#[derive(Clone, Copy, PartialEq, Eq)]
pub struct OtherKind(pub u32);

impl TryFrom<u32> for Arithmetic {
    type Error = OtherKind;

    ghost try_from_gives = { NamesArithmetic };

    fn try_from(kind: u32) -> Result<Self, OtherKind> {
        match kind {
            13 => Ok(Arithmetic::Add),
            14 => Ok(Arithmetic::Sub),
            16 => Ok(Arithmetic::Mul),
            _ => Err(OtherKind(kind)),
        }
    }
}
