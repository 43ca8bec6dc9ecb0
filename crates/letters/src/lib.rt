// The editions of the text by their letters, and the vector that a field of letters tells (01, "Text"; 02, requests 5 and 11).
#![tactic(auto)]

ghost use Rattle.std.specs.Prelude.{◌≡◌};
ghost use Rattle.grammar.specs.Lists.{is_in};
ghost use Rattle.grammar.specs.Line.{is_letter, mask_bit, value_bit, is_vector, vector_of};
ghost use Rattle.letters.specs.Reads.{reading};
ghost use Rattle.letters.specs.Model.{edition_model, vector_model};

const WIDTH_LIMIT: usize = checks::limits::WIDTH_LIMIT as usize;

// The edition that a text is read by.
#[derive(Clone, Copy)]
pub enum Edition {
    First,
    Second,
    Third,
}

// The vector that a field of letters tells.
#[derive(Clone, Copy)]
pub struct VectorField {
    pub width: u32,
    pub mask: u32,
    pub value: u32,
}

// Is the edition older than edition 3?
pub fn is_older(e: Edition) -> bool
    ensures { result ≡ (edition_model e).older }
{
    matches!(e, Edition::First | Edition::Second)
}

// Is `b` one of the letters?
#[tactic(auto, using(crate::proofs::Among::found_from))]
fn is_among(b: u8, letters: &[u8]) -> bool
    ensures { result ≡ is_in b letters.now }
{
    for i in 0..letters.len() {
        if letters[i] == b {
            return true;
        }
    }
    false
}

// Three matches, one for each of 0, 1 and X: one for all would answer a struct of the same nine words.

// Does `b` stand for 0?
fn is_zero(e: Edition, b: u8) -> bool
    ensures { result ≡ is_in b (edition_model e).letters.zeros }
{
    match e {
        Edition::First => is_among(b, b"0"),
        Edition::Second => is_among(b, b"0L"),
        Edition::Third => is_among(b, b"0"),
    }
}

// Does `b` stand for 1?
fn is_one(e: Edition, b: u8) -> bool
    ensures { result ≡ is_in b (edition_model e).letters.ones }
{
    match e {
        Edition::First => is_among(b, b"1"),
        Edition::Second => is_among(b, b"1H"),
        Edition::Third => is_among(b, b"1"),
    }
}

// Does `b` stand for X?
fn is_unknown(e: Edition, b: u8) -> bool
    ensures { result ≡ is_in b (edition_model e).letters.unknowns }
{
    match e {
        Edition::First => is_among(b, b"X"),
        Edition::Second => is_among(b, b"UXZW-"),
        Edition::Third => is_among(b, b"X"),
    }
}

fn is_letter(e: Edition, b: u8) -> bool
    ensures { result ≡ is_letter (edition_model e).letters b }
{
    is_zero(e, b) || is_one(e, b) || is_unknown(e, b)
}

fn mask_bit(e: Edition, b: u8) -> u32
    ensures { result ≡ mask_bit (edition_model e).letters b }
{
    u32::from(is_unknown(e, b))
}

fn value_bit(e: Edition, b: u8) -> u32
    ensures { result ≡ value_bit (edition_model e).letters b }
{
    u32::from(is_one(e, b))
}

// The vector that a field stands for.
pub fn vector(e: Edition, f: &[u8]) -> Option<VectorField>
    ensures { let a = (edition_model e).letters in
        vector_model result ≡ reading (is_vector a f.now) (vector_of a f.now) }
{
    let len = f.len();
    if len == 0 {
        return None;
    }
    if WIDTH_LIMIT < len {
        return None;
    }
    let mut m: u32 = 0;
    let mut v: u32 = 0;
    for i in 0..len {
        let b = f[i];
        if !is_letter(e, b) {
            return None;
        }
        m = m * 2 + mask_bit(e, b);
        v = v * 2 + value_bit(e, b);
    }
    Some(VectorField {
        width: len as u32,
        mask: m,
        value: v,
    })
}
