// What a field of a line tells where it stands for a number (01, "Text").
ghost use Rattle.std.specs.Prelude.{◌≡◌};
ghost use Rattle.grammar.specs.Line.{is_number, number_of};
ghost use Rattle.letters.specs.Reads.{reading};

use crate::limits::NUMBER_LIMIT;

// The number that a field stands for.
pub fn number(f: &[u8]) -> Option<u32>
    ensures { result ≡ reading (is_number f.now) (number_of f.now) }
{
    let len = f.len();
    if len == 0 {
        return None;
    }
    if f[0] == b'0' {
        if len == 1 {
            return Some(0);
        }
        return None;
    }
    let mut n: u32 = 0;
    for i in 0..len {
        let b = f[i] as u32;
        if b < 48 {
            return None;
        }
        if 57 < b {
            return None;
        }
        n = n * 10 + (b - 48);
        if NUMBER_LIMIT < n {
            return None;
        }
    }
    Some(n)
}
