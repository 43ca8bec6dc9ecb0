// Checks 6 to 8 of a record: its kind, and its words against the rows that there are.
ghost use Rattle.std.specs.Prelude.{◌≡◌, true, not, T};
ghost use Rattle.operations.specs.Kind.{is_base};
ghost use Rattle.operations.specs.Kinds.{is_kind, kind_of};
ghost use Rattle.operations.specs.Record.{words_of};
ghost use Rattle.operations.specs.Faults.{word_outside, misused, named_faults};
ghost use Rattle.checks.specs.Check.{placed, Passed};
ghost use Rattle.checks.specs.Model.{verdict_model, judged};

use crate::cells::check_cells;
use crate::described::{row_outside, word_misused, word_outside, word_within};
use crate::limits::PARAMETER_LIMIT;
use crate::refusals::Reason;
use crate::{Verdict, refuse};
use operations::{Record, has_cells, is_kind, parameter_use, second_use, sixth_use, word_class};

// The number that a shift, rotation or extract parameter must be below.
const PARAMETERS: usize = PARAMETER_LIMIT as usize + 1;

// Whether a record of a known kind without cells passes checks 7 and 8, in a table of n rows: a word is below its limit exactly where neither refuses it.
fn words_pass(n: usize, r: Record) -> bool
    requires { T (is_kind r.kind) × T (not (is_base (kind_of r.kind).use_c)) }
    ensures { result ≡ true → Passed (placed 0 (named_faults n (words_of r))) }
{
    if row_outside(n, r.t) {
        return false;
    }
    if row_outside(n, r.a) {
        return false;
    }
    let class = word_class(r.kind);
    if !word_within(class.uses_second(), n, r.b) {
        return false;
    }
    if !word_within(class.uses_parameter(), PARAMETERS, r.p) {
        return false;
    }
    word_within(class.uses_sixth(), n, r.c)
}

// What the word b, p or the sixth is to the record's kind, which is without cells: outside the table, or none that it may have.
fn second_outside(n: usize, r: Record) -> bool
    requires { T (is_kind r.kind) }
    ensures { result ≡ word_outside n (kind_of r.kind).use_b r.b }
{
    word_outside(second_use(r.kind), n, r.b)
}

fn sixth_outside(n: usize, r: Record) -> bool
    requires { T (is_kind r.kind) × T (not (is_base (kind_of r.kind).use_c)) }
    ensures { result ≡ word_outside n (kind_of r.kind).use_c r.c }
{
    word_outside(sixth_use(r.kind), n, r.c)
}

fn second_misused(r: Record) -> bool
    requires { T (is_kind r.kind) }
    ensures { result ≡ misused (kind_of r.kind).use_b r.b }
{
    word_misused(second_use(r.kind), r.b)
}

fn parameter_misused(r: Record) -> bool
    requires { T (is_kind r.kind) × T (not (is_base (kind_of r.kind).use_c)) }
    ensures { result ≡ misused (kind_of r.kind).use_p r.p }
{
    word_misused(parameter_use(r.kind), r.p)
}

fn sixth_misused(r: Record) -> bool
    requires { T (is_kind r.kind) × T (not (is_base (kind_of r.kind).use_c)) }
    ensures { result ≡ misused (kind_of r.kind).use_c r.c }
{
    word_misused(sixth_use(r.kind), r.c)
}

// The first of checks 7 and 8 that a record of a known kind without cells fails, test by test; i is its place.
fn first_fault(n: usize, r: Record, i: usize) -> Verdict
    requires { T (is_kind r.kind) × T (not (is_base (kind_of r.kind).use_c)) }
    ensures { verdict_model result ≡ judged (placed i (named_faults n (words_of r))) }
{
    if row_outside(n, r.t) {
        return refuse(Reason::Row, i);
    }
    if row_outside(n, r.a) {
        return refuse(Reason::Row, i);
    }
    if second_outside(n, r) {
        return refuse(Reason::Row, i);
    }
    if sixth_outside(n, r) {
        return refuse(Reason::Row, i);
    }
    if second_misused(r) {
        return refuse(Reason::Word, i);
    }
    if parameter_misused(r) {
        return refuse(Reason::Word, i);
    }
    if sixth_misused(r) {
        return refuse(Reason::Word, i);
    }
    Ok(())
}

// The first of checks 6 to 8 that a record fails: which of 7 and 8 is looked for only where there is one.
pub fn check_named(n: usize, r: Record, i: usize) -> Verdict
    ensures { verdict_model result ≡ judged (placed i (named_faults n (words_of r))) }
{
    if !is_kind(r.kind) {
        return refuse(Reason::Kind, i);
    }
    if has_cells(r.kind) {
        return check_cells(n, r, i);
    }
    if words_pass(n, r) {
        return Ok(());
    }
    first_fault(n, r, i)
}
