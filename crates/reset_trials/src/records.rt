// Records of two operand rows that write row 3: a load from the second one and the row after it, a store of the second one into row 3, or a kind without cells.
ghost use Rattle.std.specs.Prelude.{◌<◌};

use crate::rows::{Rows, row_at};
use oracle::cells::{Cells, loaded, stored};
use oracle::choices::{Row, enumerated};
use oracle::numbers::word;
use oracle::shapes::{LOAD, STORE, Shape};

// The words of such a record.
pub fn record(kind: u64, a: u32, b: u32) -> [u32; 6] {
    if kind == LOAD {
        return [word(kind), 3, a, 0, 2, b];
    }
    if kind == STORE {
        return [word(kind), 0, a, b, 1, 3];
    }
    [word(kind), 3, a, b, 0, 0]
}

// Two cells.
fn two_cells(first: Row, second: Row) -> Cells {
    Cells {
        mask: [first.mask, second.mask, 0, 0],
        value: [first.value, second.value, 0, 0],
    }
}

// Row 3 after it, by enumeration.
pub fn result(kind: u64, rows: Rows, a: u64, b: u64) -> Row
    requires { (a < 4) × (b < 3) }
{
    let first = row_at(rows, a);
    let second = row_at(rows, b);
    if kind == LOAD {
        return loaded(2, 2, 2, first, two_cells(second, row_at(rows, b + 1)));
    }
    if kind == STORE {
        return stored(2, 0, 2, first, second, row_at(rows, 3));
    }
    let s = Shape {
        kind,
        wt: 2,
        wa: 2,
        wb: 2,
        p: 0,
    };
    enumerated(s, first, second, Row { mask: 0, value: 0 })
}
