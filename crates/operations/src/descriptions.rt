// What the kinds' descriptions say of words and widths, by name, and the digits that stand for it.
#![tactic(auto)]

ghost use Rattle.std.specs.Prelude.{◌≡◌};
ghost use Rattle.operations.specs.Encoding.{use_numbered, class_numbered, rule_numbered, uses_second, uses_parameter, uses_sixth};

// What a word of a record is to a kind.
#[derive(Clone, Copy, PartialEq, Eq)]
pub enum WordUse {
    Nothing,
    Row,
    Number,
    Cells, // how many, or their base row
}

// Which of the words b, p and the sixth a kind without cells uses.
#[derive(Clone, Copy, PartialEq, Eq)]
pub enum WordClass {
    NoneUsed,
    Second,
    Parameter,
    SecondAndSixth,
}

impl WordClass {
    pub fn uses_second(self) -> bool
        ensures { result ≡ uses_second self }
    {
        matches!(self, WordClass::Second | WordClass::SecondAndSixth)
    }

    pub fn uses_parameter(self) -> bool
        ensures { result ≡ uses_parameter self }
    {
        matches!(self, WordClass::Parameter)
    }

    pub fn uses_sixth(self) -> bool
        ensures { result ≡ uses_sixth self }
    {
        matches!(self, WordClass::SecondAndSixth)
    }
}

// What a kind asks of the widths.
#[derive(Clone, Copy, PartialEq, Eq)]
pub enum WidthRule {
    SameWidth,
    SameWidths,
    TakenWidth,
    JoinedWidths,
    ExtendedWidth,
    ComparedWidths,
    ChosenWidths,
    CellWidths,
}

pub fn use_of(digit: u64) -> WordUse
    ensures { result ≡ use_numbered digit }
{
    match digit {
        0 => WordUse::Nothing,
        1 => WordUse::Row,
        2 => WordUse::Number,
        _ => WordUse::Cells,
    }
}

pub fn class_of(digit: u64) -> WordClass
    ensures { result ≡ class_numbered digit }
{
    match digit {
        0 => WordClass::NoneUsed,
        1 => WordClass::Second,
        2 => WordClass::Parameter,
        _ => WordClass::SecondAndSixth,
    }
}

pub fn rule_of(digits: u64) -> WidthRule
    ensures { result ≡ rule_numbered digits }
{
    match digits {
        0 => WidthRule::SameWidth,
        1 => WidthRule::SameWidths,
        2 => WidthRule::TakenWidth,
        3 => WidthRule::JoinedWidths,
        4 => WidthRule::ExtendedWidth,
        5 => WidthRule::ComparedWidths,
        6 => WidthRule::ChosenWidths,
        _ => WidthRule::CellWidths,
    }
}
