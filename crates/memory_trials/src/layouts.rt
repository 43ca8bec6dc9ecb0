// The tables by their numbers. A layout says where the record's rows are; the tables of a layout differ in their vectors alone.
ghost use Rattle.std.specs.Prelude.{◌≤◌};

use crate::row_vectors::{vector, vectors, vectors_of};
use crate::{ADDRESS, BASE, DATA, Question};
use oracle::choices::Row;
use oracle::numbers::times;

// Whether the record is a store, the widths of the cells and of row 5, the number of cells, and the rows of address and data.
#[derive(Clone, Copy)]
pub struct Layout {
    pub store: bool,
    pub w: u64,
    pub wa: u64,
    pub n: u64,
    pub a: u64,
    pub b: u64,
}

// How many layouts are numbered. Those whose address or data is a cell that there is not are left out.
pub const LAYOUTS: u64 = 56 + 56 * 5;

// The layout of a number: widths 1 and 2, 1 to 4 cells, an address of width 1 to 3 that is no cell, or a cell; of stores also data that are no cell, or a cell.
pub fn layout_of(number: u64) -> Layout {
    let place = number % 56 / 8;
    let rest = number / 56;
    let inside = place >= 3;
    Layout {
        store: rest > 0,
        w: number % 2 + 1,
        wa: if inside { 1 } else { place + 1 },
        n: number % 8 / 2 + 1,
        a: if inside { (place + 5) % 7 } else { ADDRESS },
        b: if rest % 5 == 0 { DATA } else { rest % 5 },
    }
}

// Whether a row is one of n cells, or after row 4.
fn is_there(row: u64, n: u64) -> bool {
    row <= n || row > 4
}

// Whether the layout's rows are there.
pub fn fits(l: Layout) -> bool {
    is_there(l.a, l.n) && is_there(l.b, l.n)
}

// The width of row i.
fn width(l: Layout, i: u64) -> u64 {
    if i == ADDRESS { l.wa } else { l.w }
}

// The vectors of an address that is no cell; 1 where it is one.
fn addresses(l: Layout) -> u64
    ensures { (1 ≤ result) × (result ≤ 6561) }
{
    if l.a == ADDRESS { vectors(l.wa) } else { 1 }
}

// The same of the data, and 1 where there are none.
fn data(l: Layout) -> u64
    ensures { (1 ≤ result) × (result ≤ 6561) }
{
    if l.store && l.b == DATA {
        vectors(l.w)
    } else {
        1
    }
}

// How many tables a layout has: every address with every data and all cells' vectors.
pub fn tables_of(l: Layout) -> u64 {
    let outside = times(addresses(l), data(l));
    times(vectors_of(l.w, l.n), outside % 4294967296)
}

// The vector of row i in table m, as a number: its digits in m. Rows that are neither a cell nor address nor data have any.
fn code(l: Layout, m: u64, i: u64) -> u64 {
    if i == ADDRESS {
        return m / vectors_of(l.w, l.n);
    }
    if i == DATA {
        return m / vectors_of(l.w, l.n) / addresses(l);
    }
    if i == 0 {
        return m.wrapping_add(1);
    }
    m / vectors_of(l.w, i.wrapping_sub(BASE))
}

// Row i in table m.
fn row(l: Layout, m: u64, i: u64) -> Row {
    vector(code(l, m, i) % vectors(width(l, i)))
}

// Table m of a layout.
pub fn question(l: Layout, m: u64) -> Question {
    let r0 = row(l, m, 0);
    let r1 = row(l, m, 1);
    let r2 = row(l, m, 2);
    let r3 = row(l, m, 3);
    let r4 = row(l, m, 4);
    let r5 = row(l, m, 5);
    let r6 = row(l, m, 6);
    let r7 = row(l, m, 7);
    Question {
        store: l.store,
        w: l.w,
        wa: l.wa,
        n: l.n,
        a: l.a,
        b: l.b,
        mask: [
            r0.mask, r1.mask, r2.mask, r3.mask, r4.mask, r5.mask, r6.mask, r7.mask,
        ],
        value: [
            r0.value, r1.value, r2.value, r3.value, r4.value, r5.value, r6.value, r7.value,
        ],
    }
}
