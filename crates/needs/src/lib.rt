// Which rows are needed, a byte a row, 1 where it is (02, request 13).
#![tactic(auto)]

ghost use Rattle.std.specs.Prelude.{◌≡◌, [], ℕ, T, length};
ghost use Rattle.operations.specs.Kind.{is_row};
ghost use Rattle.operations.specs.Kinds.{is_kind, kind_of};
ghost use Rattle.operations.specs.Memory.{span};
ghost use Rattle.operations.specs.Record.{words_of, used, used_last, sixth_rows};
ghost use Rattle.needs.specs.Needs.{marked};
ghost use Rattle.needs.specs.Encoding.{rows_told, with_mark, needs_before, ZeroOrOne, SpanIn, RowsIn, RoomForMarks};

use operations::descriptions::WordUse;
use operations::{LOAD, Record, STORE, second_use, sixth_use};

// The n rows from the base on become needed. The lowest bit is set: a constant would be compiled to a call of a function that is not the library's.
fn mark_span(need: &mut [u8], base: usize, n: usize)
    requires { ZeroOrOne need.old × SpanIn (length need.old) base n }
    ensures { need.new ≡ with_mark 1 (span base n) need.old }
{
    for i in 0..n {
        need[base + i] = need[base + i] | 1;
    }
}

// How many rows a word stands for, that names no cells: one where it is a row.
fn rows_of(u: WordUse) -> usize
    ensures { result ≡ rows_told u }
{
    match u {
        WordUse::Row => 1,
        WordUse::Nothing | WordUse::Number | WordUse::Cells => 0,
    }
}

// How many rows the word b stands for: one where the kind uses it.
fn second_rows(r: Record) -> usize
    requires { T (is_kind r.kind) }
    ensures { span r.b result ≡ used (kind_of r.kind).use_b r.b [] }
{
    rows_of(second_use(r.kind))
}

// How many rows the sixth word stands for, of a kind that writes a row t: the cells of a load, or the condition of an ite.
fn sixth_rows(r: Record) -> usize
    requires { T (is_kind r.kind) × T (is_row (kind_of r.kind).use_t) }
    ensures { span r.c result ≡ used_last (kind_of r.kind).use_c (sixth_rows (kind_of r.kind).use_c r.c r.p) }
{
    if r.kind == LOAD {
        return r.p as usize;
    }
    rows_of(sixth_use(r.kind))
}

// From the rows needed after a record that stays to those needed before it.
pub fn need_before(need: &mut [u8], r: Record)
    requires { ZeroOrOne need.old × RowsIn (length need.old) r }
    ensures { need.new ≡ needs_before (words_of r) need.old }
{
    if r.kind == STORE {
        let address = r.a as usize;
        let data = r.b as usize;
        need[address] = 1;
        need[data] = 1;
        return;
    }
    let t = r.t as usize;
    let a = r.a as usize;
    need[t] = 0;
    need[a] = 1;
    mark_span(need, r.b as usize, second_rows(r));
    mark_span(need, r.c as usize, sixth_rows(r));
}

// At the end the marked rows are needed. What the room holds at first is 0.
#[tactic(auto, using(crate::proofs::Taken::taken_one, crate::proofs::Taken::taken_none))]
pub fn take_marks(marks: &[u8], need: &mut [u8])
    requires { RoomForMarks marks.now need.old }
    ensures { ((i : ℕ) → marked need.new i ≡ marked marks.now i) × (length need.new ≡ length need.old) × ZeroOrOne need.new }
{
    for i in 0..marks.len() {
        if marks[i] == 1 {
            need[i] = 1;
        }
    }
}
