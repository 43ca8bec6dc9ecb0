// Powers of two, bits and products of plain numbers.
ghost use Rattle.std.specs.Prelude.{◌≡◌, ◌^◌, ◌<◌, ◌≤◌};
ghost use Rattle.bits.specs.Limits.{width_limit};

// 2^k.
pub fn power(k: u64) -> u64
    requires { k ≤ width_limit }
    ensures { (result ≡ 2 ^ k) × (1 ≤ result) × (result ≤ 4294967296) }
{
    1u64 << k
}

// Bit k of a number.
pub fn bit(x: u64, k: u64) -> u64
    requires { k ≤ width_limit }
{
    x / power(k) % 2
}

// The product of a number below 2^32 and one of at most 2^32.
pub fn times(a: u64, b: u64) -> u64
    requires { (a < 4294967296) × (b ≤ 4294967296) }
    ensures { result ≤ 18446744069414584320 }
{
    a * b
}

// The lesser number.
pub fn least(a: u64, b: u64) -> u64
    ensures { (result ≤ a) × (result ≤ b) }
{
    if a < b { a } else { b }
}

// 1 for true, 0 for false.
pub fn truth(b: bool) -> u64 {
    if b { 1 } else { 0 }
}

// A number below 2^32 as a word of a table.
pub fn word(x: u64) -> u32 {
    (x % 4294967296) as u32
}

// A number below 256 as a byte of a table.
pub fn byte(x: u64) -> u8 {
    (x % 256) as u8
}
