// Loads and stores (02, request 11): on plain numbers, and by plain enumeration of address, data and cells, each chosen on its own.
ghost use Rattle.std.specs.Prelude.{◌≤◌};
ghost use Rattle.bits.specs.Limits.{width_limit};

use crate::choices::{Row, Seen, bits_of, over, row_of};

// The rows of at most four cells.
#[derive(Clone, Copy)]
pub struct Cells {
    pub mask: [u32; 4],
    pub value: [u32; 4],
}

// Cell i.
pub fn cell_at(cells: Cells, i: u64) -> Row {
    let mask = cells.mask;
    let value = cells.value;
    let i = (i % 4) as usize;
    Row {
        mask: mask[i],
        value: value[i],
    }
}

// The number that a load from n cells gives, where that is the number of the cell addressed.
pub fn load_number(n: u64, address: u64, cell: u64) -> u64 {
    if address < n { cell } else { 0 }
}

// The number of cell i once a store has run.
pub fn store_number(i: u64, address: u64, data: u64, cell: u64) -> u64 {
    if address == i { data } else { cell }
}

// The bits of all numbers of width w that a row covers.
fn seen_of(w: u64, row: Row) -> Seen
    requires { w ≤ width_limit }
{
    over(w, row, |x| bits_of(w, x))
}

// The row that a load with this address gives, from n cells of width w.
fn loaded_at(w: u64, n: u64, address: u64, cells: Cells) -> Seen
    requires { w ≤ width_limit }
{
    if address < n {
        return seen_of(w, cell_at(cells, address));
    }
    seen_of(w, Row { mask: 0, value: 0 })
}

// The target's row of a load from n cells of width w, with an address of width wa.
pub fn loaded(w: u64, n: u64, wa: u64, address: Row, cells: Cells) -> Row
    requires { (w ≤ width_limit) × (wa ≤ width_limit) }
{
    row_of(over(wa, address, |x| loaded_at(w, n, x, cells)))
}

// The row of cell i, of width w, that a store with this address gives.
fn stored_at(w: u64, i: u64, address: u64, data: Row, cell: Row) -> Seen
    requires { w ≤ width_limit }
{
    if address == i {
        return seen_of(w, data);
    }
    seen_of(w, cell)
}

// The row of cell i, of width w, after a store, with an address of width wa.
pub fn stored(w: u64, i: u64, wa: u64, address: Row, data: Row, cell: Row) -> Row
    requires { (w ≤ width_limit) × (wa ≤ width_limit) }
{
    row_of(over(wa, address, |x| stored_at(w, i, x, data, cell)))
}
