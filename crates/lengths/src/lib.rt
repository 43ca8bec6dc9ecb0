// The bytes that a line of a text has, counted without printing it (01, "Text"; 02, requests 1 and 11).
#![tactic(auto)]

ghost use Rattle.std.specs.Prelude.{◌≡◌, ℕ, T, length};
ghost use Rattle.vectors.specs.Row.{row};
ghost use Rattle.operations.specs.Kinds.{is_kind};
ghost use Rattle.operations.specs.Record.{words_of};
ghost use Rattle.grammar.specs.Print.{decimal, row_line, record_line, line_text};

use operations::{Record, name_len};

// How many digits a number has in decimal.
pub fn digit_count(n: usize) -> usize
    ensures { result ≡ length (decimal n) }
{
    let mut leading = n;
    let mut count: usize = 1;
    while 10 <= leading {
        leading = leading / 10;
        count += 1;
    }
    count
}

// A row line's bytes, whatever letters its vector has.
pub fn row_length(lock: u8, width: u8) -> usize
    ensures { (mask value : ℕ) → result ≡ length (line_text (row_line (record { lock = lock; vector = row width mask value }))) }
{
    if lock == 1 {
        return b"row\tlocked\t\n".len() + width as usize;
    }
    b"row\topen\t\n".len() + width as usize
}

// A record line's bytes.
pub fn record_length(r: Record) -> usize
    requires { T (is_kind r.kind) }
    ensures { result ≡ length (line_text (record_line (words_of r))) }
{
    let Record {
        kind,
        t,
        a,
        b,
        p,
        c,
    } = r;
    let name = name_len(kind as usize);
    let t_digits = digit_count(t as usize);
    let a_digits = digit_count(a as usize);
    let b_digits = digit_count(b as usize);
    let p_digits = digit_count(p as usize);
    let c_digits = digit_count(c as usize);
    b"op\t\t\t\t\t\t\n".len() + name + t_digits + a_digits + b_digits + p_digits + c_digits
}
