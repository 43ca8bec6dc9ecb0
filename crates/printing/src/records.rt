// Writing record lines into a lent buffer (01, "Text"; 02, request 11).
ghost use Rattle.std.specs.Prelude.{◌∷◌, ◌++◌, T};
ghost use Rattle.operations.specs.Kinds.{is_kind, kind_of};
ghost use Rattle.operations.specs.Record.{words_of};
ghost use Rattle.grammar.specs.Words.{tab};
ghost use Rattle.grammar.specs.Print.{decimal, record_line, line_text};
ghost use Rattle.printing.specs.Put.{Holds, Put};

use crate::put::{put_byte, put_number, put_word};
use grammar::{LF, TAB};
use operations::{Record, name_byte, name_len};

fn put_name(out: &mut [u8], at: usize, k: usize) -> usize
    requires { T (is_kind k) × Holds out.old at (kind_of k).name }
    ensures { Put out.old out.new at result (kind_of k).name }
{
    let len = name_len(k);
    let mut to = at;
    for i in 0..len {
        out[to] = name_byte(k, i);
        to += 1;
    }
    to
}

// Writes a tab and a number.
fn put_next(out: &mut [u8], at: usize, n: usize) -> usize
    requires { Holds out.old at (tab ∷ decimal n) }
    ensures { Put out.old out.new at result (tab ∷ decimal n) }
{
    let a = put_byte(out, at, TAB);
    put_number(out, a, n)
}

// Writes two numbers, a tab before each.
fn put_two(out: &mut [u8], at: usize, m: usize, n: usize) -> usize
    requires { Holds out.old at (tab ∷ decimal m ++ tab ∷ decimal n) }
    ensures { Put out.old out.new at result (tab ∷ decimal m ++ tab ∷ decimal n) }
{
    let a = put_next(out, at, m);
    put_next(out, a, n)
}

// Writes a record line.
pub fn put_record(out: &mut [u8], at: usize, r: Record) -> usize
    requires { T (is_kind r.kind) × Holds out.old at (line_text (record_line (words_of r))) }
    ensures { Put out.old out.new at result (line_text (record_line (words_of r))) }
{
    let Record {
        kind,
        t,
        a,
        b,
        p,
        c,
    } = r;
    let x = put_word(out, at, b"op\t");
    let y = put_name(out, x, kind as usize);
    let z = put_next(out, y, t as usize);
    let u = put_two(out, z, a as usize, b as usize);
    let v = put_two(out, u, p as usize, c as usize);
    put_byte(out, v, LF)
}
