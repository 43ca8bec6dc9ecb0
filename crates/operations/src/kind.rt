// The kinds by name, in the order of their numbers.
ghost use Rattle.std.specs.Prelude.{◌≡◌};
ghost use Rattle.operations.specs.KindNumbers.{kind_number, Names};

// What a record does to its rows.
#[derive(Clone, Copy, PartialEq, Eq)]
pub enum Kind {
    Copy,
    Not,
    And,
    Or,
    Xor,
    Shl,
    Lshr,
    Ashr,
    Rotl,
    Extract,
    Concat,
    Zext,
    Sext,
    Add,
    Sub,
    Neg,
    Mul,
    Eq,
    Ult,
    Slt,
    Ite,
    Umulw,
    Smulw,
    Sumulw,
    Load,
    Store,
}

// A number that no kind has.
#[derive(Clone, Copy, PartialEq, Eq)]
pub struct UnknownKind(pub u32);

impl TryFrom<u32> for Kind {
    type Error = UnknownKind;

    ghost try_from_gives = { Names };

    #[tactic(auto, unfolding(crate::specs::Kinds::is_kind))]
    fn try_from(number: u32) -> Result<Self, UnknownKind> {
        Ok(match number {
            0 => Kind::Copy,
            1 => Kind::Not,
            2 => Kind::And,
            3 => Kind::Or,
            4 => Kind::Xor,
            5 => Kind::Shl,
            6 => Kind::Lshr,
            7 => Kind::Ashr,
            8 => Kind::Rotl,
            9 => Kind::Extract,
            10 => Kind::Concat,
            11 => Kind::Zext,
            12 => Kind::Sext,
            13 => Kind::Add,
            14 => Kind::Sub,
            15 => Kind::Neg,
            16 => Kind::Mul,
            17 => Kind::Eq,
            18 => Kind::Ult,
            19 => Kind::Slt,
            20 => Kind::Ite,
            21 => Kind::Umulw,
            22 => Kind::Smulw,
            23 => Kind::Sumulw,
            24 => Kind::Load,
            25 => Kind::Store,
            _ => return Err(UnknownKind(number)),
        })
    }
}

impl From<Kind> for u32 {
    ghost from_gives = { λ kind number. number ≡ kind_number kind };

    fn from(kind: Kind) -> u32 {
        kind as u32
    }
}
