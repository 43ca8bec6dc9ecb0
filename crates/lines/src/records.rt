// The record that the fields of a record line tell (01, "Text"; 02, request 11).
ghost use Rattle.std.specs.Prelude.{◌≡◌, ◌&&◌, [], ◌∷◌, ◌≤◌, T, take};
ghost use Rattle.vectors.specs.Lists.{all_of};
ghost use Rattle.operations.specs.Kind.{is_row};
ghost use Rattle.operations.specs.Kinds.{kinds, kind_count, is_kind, kind_of};
ghost use Rattle.operations.specs.Record.{words_of};
ghost use Rattle.grammar.specs.Words.{edition1, edition3, extended};
ghost use Rattle.grammar.specs.Line.{is_number, number_of, is_name, number_named};
ghost use Rattle.letters.specs.Reads.{reading};
ghost use Rattle.lines.specs.Model.{record_model, record_told};

use crate::fields::number;
use crate::limits::OLDER_KINDS;
use crate::words::kind_among;
use operations::descriptions::WordUse;
use operations::{KINDS, Record, sixth_use};

// The name of an operation among the first `n`, and four numbers. The sixth word is 0.
fn four_numbers(n: u32, name: &[u8], t: &[u8], a: &[u8], b: &[u8], p: &[u8]) -> Option<Record>
    requires { n ≤ kind_count }
    ensures { let ks = take n kinds in
        let f = name.now in
        let t' = t.now in
        let a' = a.now in
        let b' = b.now in
        let p' = p.now in
        record_model result ≡ reading (is_name f ks && all_of is_number (t' ∷ a' ∷ b' ∷ p' ∷ []))
        (number_named f ks ∷ number_of t' ∷ number_of a' ∷ number_of b' ∷ number_of p' ∷ 0 ∷ []) }
{
    let kind = kind_among(name, n)?;
    let t = number(t)?;
    let a = number(a)?;
    let b = number(b)?;
    let p = number(p)?;
    Some(Record {
        kind,
        t,
        a,
        b,
        p,
        c: 0,
    })
}

// The record of an older line: the fourth number of an ite becomes the sixth word, and its parameter 0.
fn six_words(r: Record) -> Record
    requires { T (is_kind r.kind) }
    ensures { words_of result ≡ r.kind ∷ extended (is_row (kind_of r.kind).use_c) 0 (r.t ∷ r.a ∷ r.b ∷ r.p ∷ []) }
{
    match sixth_use(r.kind) {
        WordUse::Row => Record { p: 0, c: r.p, ..r },
        WordUse::Nothing | WordUse::Number | WordUse::Cells => Record { c: 0, ..r },
    }
}

// The operation's name, t, a, b, p: of the older editions.
pub fn older_record(name: &[u8], t: &[u8], a: &[u8], b: &[u8], p: &[u8]) -> Option<Record>
    ensures { let numbers = t.now ∷ a.now ∷ b.now ∷ p.now ∷ [] in
        record_model result ≡ record_told edition1 name.now numbers }
{
    let r = four_numbers(OLDER_KINDS, name, t, a, b, p)?;
    Some(six_words(r))
}

// The operation's name, t, a, b, p and the sixth word: of edition 3.
pub fn third_record(name: &[u8], t: &[u8], a: &[u8], b: &[u8], p: &[u8], c: &[u8]) -> Option<Record>
    ensures { let numbers = t.now ∷ a.now ∷ b.now ∷ p.now ∷ c.now ∷ [] in
        record_model result ≡ record_told edition3 name.now numbers }
{
    let r = four_numbers(KINDS, name, t, a, b, p)?;
    let c = number(c)?;
    Some(Record { c, ..r })
}
