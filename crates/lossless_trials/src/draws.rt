// The numbers drawn for a table: the same ones in every run.
ghost use Rattle.std.specs.Prelude.{◌<◌, ◌≤◌};

// The number after x in a linear congruence modulo 2^31.
fn next(x: u64) -> u64 {
    (x % 2147483648 * 1103515245 + 12345) % 2147483648
}

// x modulo n.
pub fn remainder(x: u64, n: u64) -> u64
    requires { 1 ≤ n }
    ensures { result < n }
{
    x % n
}

// A number below n: that of a place of a part of a table. Parts 0 to 3 are its records, part 4 its start rows, and its marks where it has any.
pub fn drawn(table: u64, part: u64, place: u64, n: u64) -> u64
    requires { 1 ≤ n }
    ensures { result < n }
{
    let x = next(next(next(table) ^ part) ^ place);
    remainder(next(x ^ x / 65536) / 65536, n)
}
