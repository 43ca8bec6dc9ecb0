// Runs stored texts through `evaluate_input` and compares what it prints with what is stored beside them, and where that is a table, size with what write
// answers. The arguments name the pairs: a text, then what it prints.
#![tactic(auto)]

ghost use Rattle.std.specs.Prelude.{◌≤◌, length, IfOk};

use rooms::{Room, room_of};
use std::env::{Env, FillError};
use std::fs::File;
use std::io;
use std::io::Read;

mod rooms; // rooms.rt: whether size tells the room for a text exactly

// A line: a word, and a name.
fn say(rt: &impl Print, word: &[u8], name: &[u8]) -> io::Result<()> {
    rt.write_all(word)?;
    rt.write_all(name)?;
    println!(rt; "")
}

// Reads until the source ends, a read fails or the buffer is full, and tells how many bytes stand at the start of the buffer.
fn read_full(source: &mut (impl Read), buffer: &mut [u8]) -> usize
    ensures { result ≤ length buffer.new }
{
    let mut count: usize = 0;
    for _ in 0..u64::MAX {
        if count >= buffer.len() {
            break;
        }
        match source.read(&mut buffer[count..]) {
            Ok(0) => break,
            Ok(more) => {
                count += more;
            }
            Err(_) => break,
        }
    }
    count
}

// The bytes of a file, put into the buffer, and how many there are. A file that cannot be opened is named.
fn load(rt: &HostRuntime, path: &[u8], buffer: &mut [u8]) -> io::Result<usize>
    ensures { IfOk result (λ n. n ≤ length buffer.new) }
{
    if let Ok(name) = str::from_utf8(path) {
        if let Ok(mut file) = File::open(rt, name) {
            return Ok(read_full(&mut file, buffer));
        }
    }
    say(rt, b"missing ", path)?;
    Ok(0)
}

// What came of a pair: a refusal's line was printed, a table was, or something is not as it must be.
#[derive(Clone, Copy)]
enum Outcome {
    Refused,
    Written,
    Differs,
}

// Runs the text in one file and compares what it prints with what the other file holds. A text that differs is named, and so is a table whose room does.
fn compare_pair(rt: &HostRuntime, text_path: &[u8], right_path: &[u8]) -> io::Result<Outcome> {
    let mut text = evaluation::text_buffer();
    let mut right = evaluation::text_buffer();
    let mut out = evaluation::output_buffer();
    let n = load(rt, text_path, &mut text)?;
    let m = evaluation::evaluate_input(&text, n, &mut out);
    let k = load(rt, right_path, &mut right)?;
    if out[..m] != right[..k] {
        say(rt, b"differs ", text_path)?;
        return Ok(Outcome::Differs);
    }
    match room_of(&right[..k]) {
        Room::NoTable => Ok(Outcome::Refused),
        Room::Exact => Ok(Outcome::Written),
        Room::Other => {
            say(rt, b"room differs ", text_path)?;
            Ok(Outcome::Differs)
        }
    }
}

// How many arguments there are, the program's name among them.
fn argument_count(env: &impl Env) -> usize {
    for i in 0..usize::MAX {
        let mut start = [0u8; 1];
        if let Err(FillError::NotPresent) = env.arg(i, &mut start) {
            return i;
        }
    }
    usize::MAX
}

// The bytes of argument i, put into the buffer, and how many there are; none where there is no such argument, or where it is longer.
fn argument(env: &impl Env, i: usize, buffer: &mut [u8]) -> usize
    ensures { result ≤ length buffer.new }
{
    env.arg(i, buffer).unwrap_or(0)
}

// The pair of arguments i and i + 1.
fn pair_outcome(rt: &HostRuntime, i: usize) -> io::Result<Outcome>
    requires { i ≤ 65536 }
{
    let mut text_path = [0u8; 64];
    let mut right_path = [0u8; 64];
    let n = argument(rt, i, &mut text_path);
    let m = argument(rt, i + 1, &mut right_path);
    compare_pair(rt, &text_path[..n], &right_path[..m])
}

// How many pairs differ, and how many print a table.
#[derive(Clone, Copy)]
struct Tally {
    differ: usize,
    written: usize,
}

// The tally of the first count pairs.
fn count_outcomes(rt: &HostRuntime, count: usize) -> io::Result<Tally>
    requires { count ≤ 10000 }
{
    let mut differ: usize = 0;
    let mut written: usize = 0;
    for k in 0..count {
        match pair_outcome(rt, 2 * k + 1)? {
            Outcome::Refused => {}
            Outcome::Written => {
                written += 1;
            }
            Outcome::Differs => {
                differ += 1;
            }
        }
    }
    Ok(Tally { differ, written })
}

fn main(rt: HostRuntime) -> io::Result<()> {
    let n = argument_count(&rt) / 2 % 10000;
    let t = count_outcomes(&rt, n)?;
    println!(rt; "tried {n}")?;
    println!(rt; "differ {}", t.differ)?;
    println!(rt; "written {}", t.written)
}
