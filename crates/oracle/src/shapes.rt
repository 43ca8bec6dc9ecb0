// Kinds, widths and parameters that fit together (01, "Records"; 02, requests 4 and 11). A kind stands by its number there, so that nothing here rests on the
// code that is tested.
ghost use Rattle.oracle.specs.Sizes.{Sized};

// How many kinds there are.
pub const KINDS: u64 = 26;

// The kinds that have cells, the last two.
pub const LOAD: u64 = 24;

pub const STORE: u64 = 25;

// A record's kind and parameter, and the widths of the target, the first and the second operand.
#[derive(Clone, Copy)]
pub struct Shape {
    pub kind: u64,
    pub wt: u64,
    pub wa: u64,
    pub wb: u64,
    pub p: u64,
    pub ghost sized: { Sized wt wa wb p },
}

// Whether the kind uses a second operand.
pub fn uses_second(kind: u64) -> bool {
    match kind {
        2..=4 | 10 | 13..=14 | 16..=23 | 25 => true,
        _ => false,
    }
}

// Whether both operands are one number where they are one row (02, requests 2, 4 and 11): wherever there are two, but for mul, the wide products and store.
pub fn one_number(kind: u64) -> bool {
    match kind {
        16 | 21..=23 | 25 => false,
        _ => uses_second(kind),
    }
}

// Whether the kind uses a condition, row 2.
pub fn uses_condition(kind: u64) -> bool {
    kind == 20
}

// Whether the widths are the kind's. A second operand that it does not use has width 1.
fn widths_fit(s: Shape) -> bool {
    let kind = s.kind;
    match kind {
        2..=4 | 13..=14 | 16 | 20 => s.wt == s.wa && s.wb == s.wa,
        9 => s.p + s.wt <= s.wa && s.wb == 1,
        10 | 21..=23 => s.wt == s.wa + s.wb,
        11 | 12 => s.wt >= s.wa && s.wb == 1,
        17..=19 => s.wt == 1 && s.wb == s.wa,
        _ => s.wt == s.wa && s.wb == 1,
    }
}

// Whether the parameter is the kind's: any number of places, or 0.
fn parameter_fits(s: Shape) -> bool {
    let kind = s.kind;
    match kind {
        5..=9 => true,
        _ => s.p == 0,
    }
}

// Whether the widths and the parameter are the kind's, which has no cells.
pub fn fits(s: Shape) -> bool {
    parameter_fits(s) && widths_fit(s)
}
