// Prints the constants that include/rifflerleek.h repeats, one a line: name and number. tests/host/header compares the header with them.
#![tactic(auto)]

ghost use Rattle.std.specs.Prelude.{◌≡◌, T};
ghost use Rattle.operations.specs.Kinds.{is_kind};
ghost use Rattle.grammar.specs.Limits.{row_bytes, record_bytes};

use checks::limits;
use checks::refusals::Reason;
use lines::limits::{NUMBER_LIMIT, OLDER_KINDS};
use operations::{KINDS, RECORD_WORDS, name_byte, name_len};
use rifflerleek::{DONE, ORDER_AROUND, ORDER_EQUAL, ORDER_INSIDE, ORDER_NONE, UNKNOWN_BIT};
use std::io;
use texts::limits::{HEADER_BYTES, RECORD_BYTES, ROW_BYTES, TEXT_LIMIT};

// The reasons of refusals, in the order of their numbers.
const REASONS: [(&str, Reason); 21] = [
    ("rows", Reason::Rows),
    ("lengths", Reason::Lengths),
    ("records", Reason::Records),
    ("width", Reason::Width),
    ("vector", Reason::Vector),
    ("kind", Reason::Kind),
    ("row", Reason::Row),
    ("word", Reason::Word),
    ("fit", Reason::Fit),
    ("locked", Reason::Locked),
    ("long", Reason::Long),
    ("line", Reason::Line),
    ("room", Reason::Room),
    ("buffer", Reason::Buffer),
    ("bit", Reason::Bit),
    ("known", Reason::Known),
    ("ends", Reason::Ends),
    ("empty", Reason::Empty),
    ("unknown", Reason::Unknown),
    ("pairs", Reason::Pairs),
    ("marks", Reason::Marks),
];

fn print_line(rt: &impl Print, name: &str, number: usize) -> io::Result<()> {
    println!(rt; "{name}\t{number}")
}

// A kind's line, by the name that the kind has in a text.
fn print_kind(rt: &impl Print, kind: usize) -> io::Result<()>
    requires { T (is_kind kind) }
{
    rt.write_all(b"kind_")?;
    for i in 0..name_len(kind) {
        rt.write_all(&[name_byte(kind, i)])?;
    }
    println!(rt; "\t{kind}")
}

fn print_kinds(rt: &impl Print) -> io::Result<()> {
    for kind in 0..KINDS {
        print_kind(rt, kind as usize)?;
    }
    Ok(())
}

fn print_refusals(rt: &impl Print) -> io::Result<()> {
    for (name, reason) in REASONS {
        println!(rt; "refused_{name}\t{}", reason.number())?;
    }
    Ok(())
}

// The most bytes of a row line, as the definitions have it.
fn row_bytes() -> usize
    ensures { result ≡ row_bytes }
{
    ROW_BYTES
}

// The most bytes of a record line, as the definitions have it.
fn record_bytes() -> usize
    ensures { result ≡ record_bytes }
{
    RECORD_BYTES
}

fn print_limits(rt: &impl Print) -> io::Result<()> {
    print_line(rt, "row_limit", limits::ROW_LIMIT)?;
    print_line(rt, "record_limit", limits::RECORD_LIMIT)?;
    print_line(rt, "record_words", RECORD_WORDS)?;
    print_line(rt, "width_limit", limits::WIDTH_LIMIT as usize)?;
    print_line(rt, "parameter_limit", limits::PARAMETER_LIMIT as usize)?;
    print_line(rt, "text_limit", TEXT_LIMIT)?;
    print_line(rt, "number_limit", NUMBER_LIMIT as usize)?;
    print_line(rt, "older_kinds", OLDER_KINDS as usize)?;
    print_line(rt, "header_bytes", HEADER_BYTES)?;
    print_line(rt, "row_bytes", row_bytes())?;
    print_line(rt, "record_bytes", record_bytes())
}

fn print_orders(rt: &impl Print) -> io::Result<()> {
    print_line(rt, "order_equal", ORDER_EQUAL)?;
    print_line(rt, "order_inside", ORDER_INSIDE)?;
    print_line(rt, "order_around", ORDER_AROUND)?;
    print_line(rt, "order_none", ORDER_NONE)
}

fn main(rt: HostRuntime) -> io::Result<()> {
    print_kinds(&rt)?;
    print_line(&rt, "done", DONE as usize)?;
    print_line(&rt, "unknown_bit", UNKNOWN_BIT)?;
    print_orders(&rt)?;
    print_refusals(&rt)?;
    print_limits(&rt)
}
