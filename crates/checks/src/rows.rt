// Checks 4 and 5 of rows and of two vectors, and 15 of a bit number.
ghost use Rattle.std.specs.Prelude.{◌≡◌, [], ◌≤◌};
ghost use Rattle.checks.specs.Check.{placed};
ghost use Rattle.checks.specs.Checks.{width_faults, vector_faults, two_vector_faults, bit_faults, row_faults, row_checks};
ghost use Rattle.bits.specs.Limits.{width_limit};
ghost use Rattle.checks.specs.Model.{in_table, verdict_model, judged};
ghost use Rattle.checks.specs.Encoding.{RowSlices};

use crate::limits::WIDTH_LIMIT;
use crate::refusals::Reason;
use crate::table::Table;
use crate::{Verdict, first_refusal, refuse};

// Check 4 of a width; i is its place.
pub fn check_width(w: u32, i: usize) -> Verdict
    ensures { verdict_model result ≡ judged (placed i (width_faults w)) }
{
    if w == 0 {
        return refuse(Reason::Width, i);
    }
    if WIDTH_LIMIT < w {
        return refuse(Reason::Width, i);
    }
    Ok(())
}

// Check 5 of a vector whose width passed check 4; i is its place.
pub fn check_vector(w: u32, m: u32, v: u32, i: usize) -> Verdict
    requires { (1 ≤ w) × (w ≤ width_limit) }
    ensures { verdict_model result ≡ judged (placed i (vector_faults w m v)) }
{
    let full = bits::width_mask(w);
    if full < m {
        return refuse(Reason::Vector, i);
    }
    if full < v {
        return refuse(Reason::Vector, i);
    }
    if m & v != 0 {
        return refuse(Reason::Vector, i);
    }
    Ok(())
}

// Checks 4 and 5 of two vectors of one width; i is their place.
pub fn check_two_vectors(w: u32, ma: u32, va: u32, mb: u32, vb: u32, i: usize) -> Verdict
    ensures { verdict_model result ≡ judged (placed i (two_vector_faults w ma va mb vb)) }
{
    check_width(w, i)?;
    let first = check_vector(w, ma, va, i);
    let second = check_vector(w, mb, vb, i);
    first_refusal(first, second)
}

// Check 15 of a bit number at width w; i is its place.
pub fn check_bit(w: u32, k: u32, i: usize) -> Verdict
    ensures { verdict_model result ≡ judged (placed i (bit_faults w k)) }
{
    if w <= k {
        return refuse(Reason::Bit, i);
    }
    Ok(())
}

// The first of checks 4 and 5 that a row fails; i is its place.
fn check_row(w: u32, l: u8, m: u32, v: u32, i: usize) -> Verdict
    ensures { verdict_model result ≡ judged (placed i (row_faults w l m v)) }
{
    check_width(w, i)?;
    if 1 < l {
        return refuse(Reason::Width, i);
    }
    check_vector(w, m, v, i)
}

// Rows rising, 4 before 5.
pub fn check_rows(t: Table) -> Verdict
    requires { RowSlices t.width.now t.lock.now t.mask.now t.value.now }
    ensures { verdict_model result ≡ judged (row_checks (in_table t.entry)) }
{
    for i in 0..t.width.len() {
        check_row(t.width[i] as u32, t.lock[i], t.mask[i], t.value[i], i)?;
    }
    Ok(())
}
