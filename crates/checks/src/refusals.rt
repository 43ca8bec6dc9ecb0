// The refusals by their causes (01, "Who can cause a refusal"; from 15 on 02).
ghost use Rattle.std.specs.Prelude.{◌≡◌};
ghost use Rattle.checks.specs.Model.{reason_number};

// What a call refuses for.
#[derive(Clone, Copy, PartialEq, Eq)]
pub enum Reason {
    Rows = 1,
    Lengths = 2,
    Records = 3,
    Width = 4,
    Vector = 5,
    Kind = 6,
    Row = 7,
    Word = 8,
    Fit = 9,
    Locked = 10,
    Long = 11,
    Line = 12,
    Room = 13,
    Buffer = 14,
    Bit = 15,
    Known = 16,
    Ends = 17,
    Empty = 18,
    Unknown = 19,
    Pairs = 20,
    Marks = 21,
}

impl Reason {
    // The number of the refusal.
    pub fn number(self) -> u32
        ensures { result ≡ reason_number self }
    {
        self as u32
    }
}

// A refusal holds its reason and its place.
#[derive(Clone, Copy, PartialEq, Eq)]
pub struct Refusal {
    pub reason: Reason,
    pub place: usize,
}
