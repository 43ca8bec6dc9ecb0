// Parts of a text cut at a byte (01, "Text": lines end in LF, fields are parted by one tab).
ghost use Rattle.std.specs.Prelude.{◌≡◌, ◌+◌, ◌≤◌, length, drop};
ghost use Rattle.grammar.specs.Cut.{pieces, before, part_ends, part_at};
ghost use Rattle.lines.specs.Model.{lies};

// Where the first byte `sep` stands from `from` on, or the length where there is none.
pub fn end_of(text: &[u8], from: usize, sep: u8) -> usize
    requires { from ≤ length text.now }
    ensures { (result ≡ from + before sep (drop from text.now)) × (result ≤ length text.now) }
{
    for i in from..text.len() {
        if text[i] == sep {
            return i;
        }
    }
    text.len()
}

// Where part `n`, from 1, of a text cut at `sep` begins; the length where there are fewer parts, and 0 for part 0.
pub fn start_of(text: &[u8], n: usize, sep: u8) -> usize
    ensures { (result ≡ (part_ends sep n text.now).start) × (result ≤ length text.now) }
{
    if n == 0 {
        return 0;
    }
    let len = text.len();
    let mut at: usize = 0;
    for _ in 1..n {
        let e = end_of(text, at, sep);
        // `<=`, and not `==`, by which the loop of `end_of` would be compiled to two instructions more a byte.
        if len <= e {
            return e;
        }
        at = e + 1;
    }
    at
}

// Part `n`, from 1, of a text cut at `sep`; an empty part where there is none.
pub fn part(text: &[u8], n: usize, sep: u8) -> &[u8]
    ensures { lies result.ref_ptr result.now ≡ part_at (lies text.entry.ref_ptr text.now) (part_ends sep n text.now) }
{
    if n == 0 {
        return &text[..0];
    }
    let start = start_of(text, n, sep);
    let end = end_of(text, start, sep);
    &text[start..end]
}

// How many parts a text cut at `sep` has.
pub fn count_parts(text: &[u8], sep: u8) -> usize
    ensures { result ≡ length (pieces sep text.now) }
{
    let mut n: usize = 1;
    for i in 0..text.len() {
        if text[i] == sep {
            n += 1;
        }
    }
    n
}
