// What the opening of a text says (02, requests 5 and 11).
ghost use Rattle.std.specs.Prelude.{◌≡◌};
ghost use Rattle.grammar.specs.Words.{header3};
ghost use Rattle.grammar.specs.Lines.{headed_by, headed_opening, opening};
ghost use Rattle.letters.specs.Model.{edition_model};
ghost use Rattle.lines.specs.Model.{opening_model};

use crate::words::is_word;
use letters::Edition;

// A text's edition, and where and with which number its first row or record line begins.
#[derive(Clone, Copy)]
pub struct Opening {
    pub edition: Edition,
    pub at: usize,
    pub first: usize,
}

// The number of bytes of a header, its LF counted.
pub const HEADER: usize = 10;

// Is the first line that header?
fn is_headed(text: &[u8], header: &[u8]) -> bool
    ensures { result ≡ headed_by header.now text.now }
{
    let n = header.len();
    if text.len() < n {
        return false;
    }
    is_word(&text[..n], header)
}

// The opening of an edition that has a header.
fn after_header(e: Edition) -> Opening
    ensures { opening_model result ≡ headed_opening (edition_model e) header3 }
{
    Opening {
        edition: e,
        at: HEADER,
        first: 2,
    }
}

// What the first line says.
pub fn opening_of(text: &[u8]) -> Opening
    ensures { opening_model result ≡ opening text.now }
{
    if is_headed(text, b"edition\t2\n") {
        return after_header(Edition::Second);
    }
    if is_headed(text, b"edition\t3\n") {
        return after_header(Edition::Third);
    }
    Opening {
        edition: Edition::First,
        at: 0,
        first: 1,
    }
}
