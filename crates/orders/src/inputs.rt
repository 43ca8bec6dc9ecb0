// What compare_states checks first: 1, 2, 4 and 5 of two states over one width slice.
ghost use Rattle.std.specs.Prelude.{◌≡◌};
ghost use Rattle.checks.specs.Check.{placed};
ghost use Rattle.checks.specs.Model.{verdict_model, judged};
ghost use Rattle.steps.specs.States.{held};
ghost use Rattle.steps.specs.Encoding.{OwnRows};
ghost use Rattle.orders.specs.Order.{compare_shape_faults, compare_row_checks, compare_checks};

use checks::limits::ROW_LIMIT;
use checks::refusals::Reason;
use checks::rows::check_two_vectors;
use checks::{Verdict, refuse};

// Checks 1 and 2 of two states.
#[tactic(auto, unfolding(checks::specs::Check::verdict))]
fn check_lengths(width: &[u8], ma: &[u32], va: &[u32], mb: &[u32], vb: &[u32]) -> Verdict
    ensures { verdict_model result ≡ judged (placed 0 (compare_shape_faults width.now (held ma.now va.now) (held mb.now vb.now))) }
{
    let n = width.len();
    if n == 0 {
        return refuse(Reason::Rows, 0);
    }
    if ROW_LIMIT < n {
        return refuse(Reason::Rows, 0);
    }
    if ma.len() != n {
        return refuse(Reason::Lengths, 0);
    }
    if va.len() != n {
        return refuse(Reason::Lengths, 0);
    }
    if mb.len() != n {
        return refuse(Reason::Lengths, 0);
    }
    if vb.len() != n {
        return refuse(Reason::Lengths, 0);
    }
    Ok(())
}

// Rows rising: 4 of the width, 5 of the first state's row, 5 of the second's.
fn check_both_rows(width: &[u8], ma: &[u32], va: &[u32], mb: &[u32], vb: &[u32]) -> Verdict
    requires { OwnRows width.now ma.now va.now × OwnRows width.now mb.now vb.now }
    ensures { verdict_model result ≡ judged (compare_row_checks width.now (held ma.now va.now) (held mb.now vb.now)) }
{
    for i in 0..width.len() {
        check_two_vectors(width[i] as u32, ma[i], va[i], mb[i], vb[i], i)?;
    }
    Ok(())
}

// What compare_states refuses.
pub fn check_states(width: &[u8], ma: &[u32], va: &[u32], mb: &[u32], vb: &[u32]) -> Verdict
    ensures { verdict_model result ≡ judged (compare_checks width.now (held ma.now va.now) (held mb.now vb.now)) }
{
    check_lengths(width, ma, va, mb, vb)?;
    check_both_rows(width, ma, va, mb, vb)
}
