// Writing words, numbers and row lines into a lent buffer (01, "Text").
ghost use Rattle.std.specs.Prelude.{◌≡◌, [], ◌∷◌, ◌≤◌, ◌<◌};
ghost use Rattle.bits.specs.Bit.{bit};
ghost use Rattle.vectors.specs.Row.{row};
ghost use Rattle.bits.specs.Limits.{width_limit};
ghost use Rattle.grammar.specs.Words.{lock_word};
ghost use Rattle.grammar.specs.Print.{decimal, letter, letters_of, row_line, line_text};
ghost use Rattle.printing.specs.Put.{Holds, Put};

use grammar::{LF, TAB};
use lengths::digit_count;

// Writes a byte.
pub fn put_byte(out: &mut [u8], at: usize, b: u8) -> usize
    requires { Holds out.old at (b ∷ []) }
    ensures { Put out.old out.new at result (b ∷ []) }
{
    out[at] = b;
    at + 1
}

// Writes a word from `at` on.
pub fn put_word(out: &mut [u8], at: usize, w: &[u8]) -> usize
    requires { Holds out.old at w.now }
    ensures { Put out.old out.new at result w.now }
{
    let mut to = at;
    for i in 0..w.len() {
        out[to] = w[i];
        to += 1;
    }
    to
}

// Writes a number from `at` on: its last digits from the end back, then its first digit. By hand, since a formatter of std needs a writer that may fail.
pub fn put_number(out: &mut [u8], at: usize, n: usize) -> usize
    requires { Holds out.old at (decimal n) }
    ensures { Put out.old out.new at result (decimal n) }
{
    let end = at + digit_count(n);
    let mut to = end;
    let mut leading = n;
    while 10 <= leading {
        to -= 1;
        out[to] = 48 + (leading % 10) as u8;
        leading = leading / 10;
    }
    out[at] = 48 + leading as u8;
    end
}

// ---- rows

// The letter of bit `k` of a vector.
#[tactic(auto, unfolding(bits::specs::Bit::bit))]
fn letter_of(m: u32, v: u32, k: u32) -> u8
    requires { k < width_limit }
    ensures { result ≡ letter (bit m k) (bit v k) }
{
    if (m >> k) % 2 == 1 {
        return b'X';
    }
    if (v >> k) % 2 == 1 {
        return b'1';
    }
    b'0'
}

// Writes the letters of the lowest `w` bits of a vector, highest first.
fn put_letters(out: &mut [u8], at: usize, w: u32, m: u32, v: u32) -> usize
    requires { (w ≤ width_limit) × Holds out.old at (letters_of w m v) }
    ensures { Put out.old out.new at result (letters_of w m v) }
{
    let mut to = at;
    for k in (0..w).rev() {
        out[to] = letter_of(m, v, k);
        to += 1;
    }
    to
}

fn put_lock(out: &mut [u8], at: usize, lock: u8) -> usize
    requires { Holds out.old at (lock_word lock) }
    ensures { Put out.old out.new at result (lock_word lock) }
{
    if lock == 1 {
        return put_word(out, at, b"locked");
    }
    put_word(out, at, b"open")
}

// Writes a row line.
pub fn put_row(out: &mut [u8], at: usize, lock: u8, w: u32, m: u32, v: u32) -> usize
    requires { (w ≤ width_limit) × Holds out.old at (line_text (row_line (record { lock = lock; vector = row w m v }))) }
    ensures { Put out.old out.new at result (line_text (row_line (record { lock = lock; vector = row w m v }))) }
{
    let a = put_word(out, at, b"row\t");
    let b = put_lock(out, a, lock);
    let c = put_byte(out, b, TAB);
    let d = put_letters(out, c, w, m, v);
    put_byte(out, d, LF)
}
