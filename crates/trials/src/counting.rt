// Tables tried, and tables that disagree.
ghost use Rattle.std.specs.Prelude.{◌<◌};

// The tables tried, and those among them on which run and the enumeration disagree.
#[derive(Clone, Copy)]
pub struct Tally {
    pub tried: u64,
    pub wrong: u64,
}

// No table.
pub fn none() -> Tally {
    Tally { tried: 0, wrong: 0 }
}

// One table.
pub fn one(agrees: bool) -> Tally {
    if agrees {
        return Tally { tried: 1, wrong: 0 };
    }
    Tally { tried: 1, wrong: 1 }
}

// The tables of both.
pub fn joined(a: Tally, b: Tally) -> Tally {
    Tally {
        tried: a.tried.wrapping_add(b.tried),
        wrong: a.wrong.wrapping_add(b.wrong),
    }
}

// The tables of all parts below n, rising.
pub fn each<F: Fn(u64) -> Tally>(n: u64, part: F) -> Tally
    requires { (k : _) → k < n → F.pre part k }
{
    let mut tally = none();
    for k in 0..n {
        tally = joined(tally, part(k));
    }
    tally
}
