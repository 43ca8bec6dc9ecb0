// What records do to the rows.
ghost use Rattle.std.specs.Prelude.{◌≡◌, not, [], ◌/◌, length, T};
ghost use Rattle.operations.specs.Kind.{Use, is_base};
ghost use Rattle.operations.specs.Kinds.{is_kind, kind_of};
ghost use Rattle.operations.specs.Limits.{record_words};
ghost use Rattle.operations.specs.Record.{words_of, effects_of};
ghost use Rattle.checks.specs.Model.{lent};
ghost use Rattle.operations.specs.Encoding.{use_told};
ghost use Rattle.steps.specs.Step.{after};
ghost use Rattle.steps.specs.Step as Step;
ghost use Rattle.tables.specs.Run.{program_of};
ghost use Rattle.steps.specs.States.{held};
ghost use Rattle.tables.specs.Encoding.{used_row, StepReady, StretchReady};

use checks::records::record_at;
use memories::{load_to, store};
use operations::descriptions::WordUse;
use operations::{LOAD, RECORD_WORDS, Record, has_cells, second_use, sixth_use};
use vectors::Vector;

// The row that a word names, 0 where it names none.
fn used_row(u: WordUse, word: u32) -> usize
    ensures { (v : Use) → u ≡ use_told v → result ≡ used_row v word }
{
    match u {
        WordUse::Row => word as usize,
        WordUse::Nothing | WordUse::Number | WordUse::Cells => 0,
    }
}

// The rows that the words b and c name, 0 where they name none.
fn second_row(r: Record) -> usize
    requires { T (is_kind r.kind) }
    ensures { result ≡ used_row (kind_of r.kind).use_b r.b }
{
    used_row(second_use(r.kind), r.b)
}

fn condition_row(r: Record) -> usize
    requires { T (is_kind r.kind) }
    ensures { result ≡ used_row (kind_of r.kind).use_c r.c }
{
    used_row(sixth_use(r.kind), r.c)
}

// One record without cells: all operands are read, then the target's mask and value are written.
fn step_row(width: &[u8], mask: &mut [u32], value: &mut [u32], r: Record)
    requires { StepReady width.now (held mask.old value.old) (words_of r) × T (not (is_base (kind_of r.kind).use_c)) }
    ensures { let effects = effects_of width.now (words_of r) in
        held mask.new value.new ≡ Step.step width.now effects (held mask.old value.old) }
{
    let i = r.t as usize;
    let j = r.a as usize;
    let k = second_row(r);
    let l = condition_row(r);
    let wt = width[i] as u32;
    let wa = width[j] as u32;
    let wb = width[k] as u32;
    let a = Vector {
        mask: mask[j],
        value: value[j],
    };
    let b = Vector {
        mask: mask[k],
        value: value[k],
    };
    let c = Vector {
        mask: mask[l],
        value: value[l],
    };
    let planes = results::of_record(r, wt, wa, wb, a, b, c);
    mask[i] = planes.mask;
    value[i] = planes.value;
}

// One record.
fn step(width: &[u8], mask: &mut [u32], value: &mut [u32], r: Record)
    requires { StepReady width.now (held mask.old value.old) (words_of r) }
    ensures { let effects = effects_of width.now (words_of r) in
        held mask.new value.new ≡ Step.step width.now effects (held mask.old value.old) }
{
    if !has_cells(r.kind) {
        step_row(width, mask, value, r);
        return;
    }
    let a = r.a as usize;
    let base = r.c as usize;
    let n = r.p as usize;
    if r.kind == LOAD {
        load_to(width, mask, value, r.t as usize, a, base, n);
        return;
    }
    store(width, mask, value, a, r.b as usize, base, n);
}

// The records of a part of the words, one after another.
pub fn step_all(width: &[u8], mask: &mut [u32], value: &mut [u32], words: &[u32])
    requires { StretchReady width.now (held mask.old value.old) words.now }
    ensures { let program = program_of (lent width.now [] [] [] words.now) in
        let start = held mask.old value.old in
        held mask.new value.new ≡ after program 0 (length words.now / record_words) start }
{
    for i in 0..words.len() / RECORD_WORDS {
        step(width, mask, value, record_at(words, i));
    }
}
