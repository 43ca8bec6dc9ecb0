// Vectors and rows compared: equal, or one inside the other.
ghost use Rattle.std.specs.Prelude.{◌≡◌, ℕ};
ghost use Rattle.vectors.specs.Row.{row_of};
ghost use Rattle.steps.specs.States.{held};
ghost use Rattle.steps.specs.Encoding.{OwnRows};
ghost use Rattle.orders.specs.Order.{inside_row, equal_states, inside_states};

use lookups::join_if;
use vectors::Vector;

// Whether a vector lies inside another of its width: joined with it, the other stays as it is.
pub fn inside_row(p: Vector, q: Vector) -> bool
    ensures { (w : ℕ) → result ≡ inside_row (row_of w p) (row_of w q) }
{
    join_if(true, q, p) == q
}

// Whether all rows of two states are equal.
pub fn equal_states(width: &[u8], ma: &[u32], va: &[u32], mb: &[u32], vb: &[u32]) -> bool
    requires { OwnRows width.now ma.now va.now × OwnRows width.now mb.now vb.now }
    ensures { result ≡ equal_states width.now (held ma.now va.now) (held mb.now vb.now) }
{
    ma == mb && va == vb
}

// Whether every row of the first state lies inside the second's.
pub fn inside_states(width: &[u8], ma: &[u32], va: &[u32], mb: &[u32], vb: &[u32]) -> bool
    requires { OwnRows width.now ma.now va.now × OwnRows width.now mb.now vb.now }
    ensures { result ≡ inside_states width.now (held ma.now va.now) (held mb.now vb.now) }
{
    for i in 0..width.len() {
        let first = Vector {
            mask: ma[i],
            value: va[i],
        };
        let second = Vector {
            mask: mb[i],
            value: vb[i],
        };
        if !inside_row(first, second) {
            return false;
        }
    }
    true
}
