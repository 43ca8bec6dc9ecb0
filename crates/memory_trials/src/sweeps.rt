// The tables tried: every address vector to width 3 over 1 to 4 cells with every vector of each cell, to width 2, and every cell as the address; of stores with
// every data vector, and with every cell as the data.
use crate::agrees;
use crate::layouts::{LAYOUTS, Layout, fits, layout_of, question, tables_of};
use trials::counting::{Tally, each, none, one};

// All tables of a layout.
fn each_table(l: Layout) -> Tally {
    each(tables_of(l), |m| one(agrees(question(l, m))))
}

// The tables of every layout, and those on which run disagrees with the enumeration or with a plain run.
pub fn memories() -> Tally {
    each(LAYOUTS, |number| {
        let l = layout_of(number);
        if fits(l) { each_table(l) } else { none() }
    })
}
