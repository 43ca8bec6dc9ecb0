// The rows of a span, tested one after another: their widths, and their marks (02, request 11).
#![tactic(auto)]

ghost use Rattle.std.specs.Prelude.{◌≡◌, ◌+◌, ◌≤◌, eqb, length, get_or};
ghost use Rattle.vectors.specs.Lists.{all_of, some_of};
ghost use Rattle.operations.specs.Memory.{span};
ghost use Rattle.operations.specs.Record.{width_at};

// Whether all rows of a span are w bits wide.
pub fn span_fits(width: &[u8], base: usize, n: usize, w: u8) -> bool
    requires { base + n ≤ length width.now }
    ensures { result ≡ all_of (λ i. eqb w (width_at width.now i)) (span base n) }
{
    for i in 0..n {
        if w != width[base + i] {
            return false;
        }
    }
    true
}

// Whether some row of a span is marked by a 1: as locked (check 10), or as needed (02, request 13).
pub fn span_marked(marks: &[u8], base: usize, n: usize) -> bool
    requires { base + n ≤ length marks.now }
    ensures { result ≡ some_of (λ i. eqb (get_or marks.now i 0) 1) (span base n) }
{
    for i in 0..n {
        if marks[base + i] == 1 {
            return true;
        }
    }
    false
}
