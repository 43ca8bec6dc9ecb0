// Lookup memories: the vector that a load gives (02, request 11).
#![tactic(auto)]

ghost use Rattle.std.specs.Prelude.{◌≡◌, ◌∷◌, ℕ, suc, min};
ghost use Rattle.vectors.specs.Row.{row_of};
ghost use Rattle.vectors.specs.Best.{best};
ghost use Rattle.operations.specs.Memory.{load_number};
ghost use Rattle.lookups.specs.Lookup.{join_if, cell_rows, LoadReady};

use vectors::Vector;

// Where the cells end that an address of at most `top` may name, of n cells.
pub fn named_end(n: usize, top: usize) -> usize
    ensures { result ≡ min n (suc top) }
{
    if top < n {
        return top + 1;
    }
    n
}

// A vector, joined with another where this is asked for.
pub fn join_if(asked: bool, x: Vector, y: Vector) -> Vector
    ensures { (w : ℕ) → row_of w result ≡ join_if asked (row_of w x) (row_of w y) }
{
    if asked {
        return Vector {
            mask: x.mask | y.mask | (x.value ^ y.value),
            value: x.value & y.value,
        };
    }
    x
}

// A load from the cells of a span, each w bits wide, by an address of wa bits: one pass over the cells from the least to the greatest address,
// and none where the address is known.
pub fn load(w: u32, wa: u32, mask: &[u32], value: &[u32], a: Vector) -> Vector
    requires { LoadReady w (row_of wa a) mask.now value.now }
    ensures { row_of w result ≡ best w load_number (row_of wa a ∷ cell_rows w mask.now value.now) }
{
    let n = mask.len();
    let x = a.value as usize;
    let zero = Vector { mask: 0, value: 0 };
    if n <= x {
        return zero;
    }
    let unknown = a.mask as usize;
    let top = (a.value | a.mask) as usize;
    let end = named_end(n, top);
    let mut joined = Vector {
        mask: mask[x],
        value: value[x],
    };
    for i in x + 1..end {
        let cell = Vector {
            mask: mask[i],
            value: value[i],
        };
        joined = join_if((i | unknown) == top, joined, cell);
    }
    join_if(n <= top, joined, zero)
}
