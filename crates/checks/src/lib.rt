// Tables: the checks of their rows and records, and of a bit number.
#![tactic(auto)]

ghost use Rattle.std.specs.Prelude.{◌≡◌, List, ◌++◌};
ghost use Rattle.checks.specs.Check.{refused, Check};
ghost use Rattle.checks.specs.Model.{reason_number, verdict_model, judged};

use refusals::Reason;
pub use refusals::Refusal;

pub mod cells; // cells.rt: checks 7 to 10 of a load and a store
pub mod described; // described.rt: what each kind uses and asks of the widths
pub mod limits; // limits.rt: numbers that 01 sets
pub mod named; // named.rt: checks 6 to 8 of a record
pub mod records; // records.rt: checks 6 to 10
pub mod refusals; // refusals.rt: the refusals by their reasons
pub mod rows; // rows.rt: checks 4 and 5, and 15 of a bit number
pub mod table; // table.rt: a table lent as five slices

// What checks find: nothing, or the first refusal.
pub type Verdict = Result<(), Refusal>;

// A refusal at a place.
pub fn refuse(reason: Reason, place: usize) -> Verdict
    ensures { verdict_model result ≡ refused (reason_number reason) place }
{
    Err(Refusal {
        reason: reason,
        place: place,
    })
}

// What two lists of checks find, one after the other: the first refusal.
pub fn first_refusal(earlier: Verdict, later: Verdict) -> Verdict
    ensures { (cs ds : List Check) → verdict_model earlier ≡ judged cs → verdict_model later ≡ judged ds → verdict_model result ≡ judged (cs ++ ds) }
{
    earlier?;
    later
}
