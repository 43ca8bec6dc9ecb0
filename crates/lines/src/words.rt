// Words of a line compared: locks and the names of the operations (01, "Text").
ghost use Rattle.std.specs.Prelude.{◌≡◌, ◌≤◌, T, take};
ghost use Rattle.operations.specs.Kinds.{kinds, kind_count, is_kind, kind_of};
ghost use Rattle.grammar.specs.Lists.{same};
ghost use Rattle.grammar.specs.Line.{is_lock, lock_of, is_name, number_named};
ghost use Rattle.letters.specs.Reads.{reading};

use operations::{name_byte, name_len};

// Does a field hold the word `w`?
pub fn is_word(f: &[u8], w: &[u8]) -> bool
    ensures { result ≡ same f.now w.now }
{
    f == w
}

// The lock that a field names.
pub fn lock_of(f: &[u8]) -> Option<u32>
    ensures { result ≡ reading (is_lock f.now) (lock_of f.now) }
{
    if is_word(f, b"locked") {
        return Some(1);
    }
    if is_word(f, b"open") {
        return Some(0);
    }
    None
}

// Does a field hold the name of kind `k`?
fn is_name(f: &[u8], k: usize) -> bool
    requires { T (is_kind k) }
    ensures { result ≡ same f.now (kind_of k).name }
{
    let len = f.len();
    if name_len(k) != len {
        return false;
    }
    for i in 0..len {
        if f[i] != name_byte(k, i) {
            return false;
        }
    }
    true
}

// The kind among the first `n` that a field names.
pub fn kind_among(f: &[u8], n: u32) -> Option<u32>
    requires { n ≤ kind_count }
    ensures { let ks = take n kinds in
        result ≡ reading (is_name f.now ks) (number_named f.now ks) }
{
    for k in 0..n {
        if is_name(f, k as usize) {
            return Some(k);
        }
    }
    None
}
