// Reads a table's text from standard input, runs all its records and writes the whole table, or the refusal's line, to standard output.
// An input that cannot be read prints nothing there; that, an output that cannot be written and an argument are told in a line on standard error.
#![tactic(auto)]

use input::read_all;
use std::env::{Env, FillError};
use std::io;

mod input; // input.rt: the input's bytes, or why they cannot be read

// Whether the program was given an argument.
fn has_argument(env: &impl Env) -> bool {
    let mut word = [0u8; 1];
    !matches!(env.arg(1, &mut word), Err(FillError::NotPresent))
}

fn main(rt: HostRuntime) -> io::Result<()> {
    if has_argument(&rt) {
        eprintln!(rt; "usage: evaluate takes no argument; it reads a table from standard input")?;
        return Ok(());
    }
    let mut text = evaluation::text_buffer();
    let count = match read_all(&mut rt.reader(), &mut text) {
        Ok(n) => n,
        Err(e) => {
            eprintln!(rt; "evaluate: standard input cannot be read: {e}")?;
            return Ok(());
        }
    };
    let mut out = evaluation::output_buffer();
    let m = evaluation::evaluate_input(&text, count, &mut out);
    if let Err(e) = rt.write_all(&out[..m]) {
        eprintln!(rt; "evaluate: standard output cannot be written: {e}")?;
    }
    Ok(())
}
