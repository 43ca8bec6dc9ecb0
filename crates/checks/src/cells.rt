// Checks 7 to 10 of a load and a store (02, request 11).
ghost use Rattle.std.specs.Prelude.{◌≡◌, T, eqb, length, get_or};
ghost use Rattle.vectors.specs.Lists.{some_of};
ghost use Rattle.operations.specs.Kind.{is_base};
ghost use Rattle.operations.specs.Kinds.{is_kind, kind_of};
ghost use Rattle.operations.specs.Record.{words_of, target_rows};
ghost use Rattle.operations.specs.Faults.{named_faults, widths_fit};
ghost use Rattle.checks.specs.Check.{placed};
ghost use Rattle.checks.specs.Model.{verdict_model, judged};
ghost use Rattle.checks.specs.Encoding.{span_faults, WordsPassed, TargetsIn};

use crate::described::row_outside;
use crate::refusals::Reason;
use crate::{Verdict, refuse};
use operations::{LOAD, Record, STORE};
use spans::{span_fits, span_marked};

// The first of checks 7 and 8 that fails: of two rows, the span, and the unused word; i is its place. Two words cannot wrap as a usize.
fn check_span(n: usize, x: u32, y: u32, base: u32, count: u32, zero: u32, i: usize) -> Verdict
    ensures { verdict_model result ≡ judged (placed i (span_faults n x y base count zero)) }
{
    if row_outside(n, x) {
        return refuse(Reason::Row, i);
    }
    if row_outside(n, y) {
        return refuse(Reason::Row, i);
    }
    if row_outside(n, base) {
        return refuse(Reason::Row, i);
    }
    if n < base as usize + count as usize {
        return refuse(Reason::Row, i);
    }
    if zero != 0 {
        return refuse(Reason::Word, i);
    }
    if count == 0 {
        return refuse(Reason::Word, i);
    }
    Ok(())
}

// The first of checks 7 and 8 that a load or a store fails.
pub fn check_cells(n: usize, r: Record, i: usize) -> Verdict
    requires { T (is_kind r.kind) × T (is_base (kind_of r.kind).use_c) }
    ensures { verdict_model result ≡ judged (placed i (named_faults n (words_of r))) }
{
    if r.kind == LOAD {
        return check_span(n, r.t, r.a, r.c, r.p, r.b, i);
    }
    check_span(n, r.a, r.b, r.c, r.p, r.t, i)
}

// Whether check 9 passes, of a load or a store that passed 6 to 8: all cells have the width of a load's target, or of a store's data.
pub fn cells_fit(width: &[u8], r: Record) -> bool
    requires { WordsPassed (length width.now) (words_of r) × T (is_base (kind_of r.kind).use_c) }
    ensures { result ≡ widths_fit width.now (words_of r) }
{
    let base = r.c as usize;
    let count = r.p as usize;
    if r.kind == LOAD {
        let t = r.t as usize;
        return span_fits(width, base, count, width[t]);
    }
    let d = r.b as usize;
    span_fits(width, base, count, width[d])
}

// Whether a row that the record writes is marked by a 1: as locked, or as needed (02, request 13).
pub fn target_marked(marks: &[u8], r: Record) -> bool
    requires { T (is_kind r.kind) × TargetsIn (length marks.now) r }
    ensures { result ≡ some_of (λ i. eqb (get_or marks.now i 0) 1) (target_rows (words_of r)) }
{
    if r.kind == STORE {
        return span_marked(marks, r.c as usize, r.p as usize);
    }
    let t = r.t as usize;
    marks[t] == 1
}
