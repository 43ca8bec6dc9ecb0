// The executed tests: every vector pair to width 4, through the public run on real tables, against plain enumeration of all choices.
// The output has a line for each kind without cells, then one for all records that name one row twice, one each for `product_bit`, `witnesses`, `range` and
// `reset_bits`, one for drawn tables that lose nothing, one for loads and stores, one each for `settle`, `compare_states` and `prune`, one for the examples and
// the total: the name, the tables tried (for `product_bit`, `witnesses` and `reset_bits` the bits, for `range` the pairs of ends, for `compare_states` the
// pairs of states), those that disagree. After `prune` a line has the records that stay in its tables and those that go.
#![tactic(auto)]

use clock_trials::compared::ordered;
use clock_trials::sweeps::settled;
use lossless_trials::sweeps::lossless;
use memory_trials::sweeps::memories;
use prune_trials::sweeps::{RECORDS, pruned, records_kept};
use report::{NAMES, print_line, print_records};
use reset_trials::sweeps::resets;
use std::io;
use sweeps::{bits, ranges, runs, runs_of_one_row, witnessed};
use trials::counting::{Tally, joined, none};
use trials::examples::examples;

mod report; // report.rt: the lines of the output
mod sweeps; // sweeps.rt: all tables of a kind

// All tables: a line for each kind without cells, and one for all records that name one row twice.
fn print_tables(rt: &impl Print) -> io::Result<Tally> {
    let mut total = none();
    let mut twice = none();
    for (kind, name) in NAMES.iter().enumerate() {
        let kind = kind as u64;
        let tally = runs(kind);
        print_line(rt, name, tally)?;
        total = joined(total, tally);
        twice = joined(twice, runs_of_one_row(kind));
    }
    print_line(rt, "named twice", twice)?;
    Ok(joined(total, twice))
}

// The tables through `prune`, and the records in them.
fn print_prunings(rt: &impl Print) -> io::Result<Tally> {
    let tally = pruned();
    print_line(rt, "prune", tally)?;
    let kept = records_kept();
    print_records(rt, kept, RECORDS.wrapping_sub(kept))?;
    Ok(tally)
}

fn main(rt: HostRuntime) -> io::Result<()> {
    let tables = print_tables(&rt)?;
    let bits = bits(16);
    print_line(&rt, "product_bit", bits)?;
    let pairs = joined(joined(witnessed(13), witnessed(14)), witnessed(16));
    print_line(&rt, "witnesses", pairs)?;
    let ends = ranges(0);
    print_line(&rt, "range", ends)?;
    let conclusions = resets();
    print_line(&rt, "reset_bits", conclusions)?;
    let designs = lossless();
    print_line(&rt, "lossless", designs)?;
    let lookups = memories();
    print_line(&rt, "memory", lookups)?;
    let clocks = settled();
    print_line(&rt, "settle", clocks)?;
    let orders = ordered();
    print_line(&rt, "compare_states", orders)?;
    let prunings = print_prunings(&rt)?;
    let shown = examples();
    print_line(&rt, "examples", shown)?;
    let calls = joined(joined(bits, pairs), joined(ends, conclusions));
    print_line(
        &rt,
        "total",
        joined(
            joined(tables, calls),
            joined(
                joined(designs, lookups),
                joined(joined(clocks, orders), joined(prunings, shown)),
            ),
        ),
    )
}
