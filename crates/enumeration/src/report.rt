// The lines of the output.
use std::io;
use trials::counting::Tally;

// The names of the kinds without cells, by their numbers.
pub const NAMES: [&str; 24] = [
    "copy", "not", "and", "or", "xor", "shl", "lshr", "ashr", "rotl", "extract", "concat", "zext",
    "sext", "add", "sub", "neg", "mul", "eq", "ult", "slt", "ite", "umulw", "smulw", "sumulw",
];

// A line: its name, the tables tried, and those that disagree.
pub fn print_line(rt: &impl Print, name: &str, tally: Tally) -> io::Result<()> {
    println!(rt; "{name}\t{}\t{}", tally.tried, tally.wrong)
}

// The line of the records that `prune` keeps and of those that it drops.
pub fn print_records(rt: &impl Print, kept: u64, dropped: u64) -> io::Result<()> {
    println!(rt; "kept, dropped\t{kept}\t{dropped}")
}
