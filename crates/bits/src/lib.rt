// The mask of a width, and the reversed word, put together from a table of 256 reversed bytes.
#![tactic(auto)]

ghost use Rattle.std.specs.Prelude.{◌≡◌, ◌+◌, ◌-◌, ◌*◌, ◌/◌, ◌^◌, ◌≤◌, ◌<◌, map};
ghost use Rattle.bits.specs.Limits.{width_limit};
ghost use Rattle.bits.specs.Reversed.{reversed, reversed_bytes};

use reversed_bytes::{REVERSED, reverse_byte};

mod reversed_bytes; // reversed_bytes.rt: the table

// Ones below the width. A shift to the right, since a shift to the left by 32 is none of u32's.
pub fn width_mask(w: u32) -> u32
    requires { (1 ≤ w) × (w ≤ width_limit) }
    ensures { result ≡ 2 ^ w - 1 }
{
    u32::MAX >> (32 - w)
}

// The byte of x that starts at bit k, reversed.
fn reverse_byte_at(table: &[u8; 256], x: u32, k: u32) -> u32
    requires { (k < 32) × (table.now ≡ reversed_bytes) }
    ensures { (result ≡ reversed 8 (x / 2 ^ k)) × (result < 2 ^ 8) }
{
    reverse_byte(table, ((x >> k) & 255) as usize) as u32
}

// One byte more at the low end.
fn append_byte(high: u32, low: u32) -> u32
    requires { (high < 2 ^ 24) × (low < 2 ^ 8) }
    ensures { result ≡ high * 2 ^ 8 + low }
{
    (high << 8) | low
}

// The 32 bits of x in the other order: the lowest byte comes to the top.
fn reverse(table: &[u8; 256], x: u32) -> u32
    requires { table.now ≡ reversed_bytes }
    ensures { result ≡ reversed 32 x }
{
    let a = reverse_byte_at(table, x, 0);
    let b = reverse_byte_at(table, x, 8);
    let c = reverse_byte_at(table, x, 16);
    let d = reverse_byte_at(table, x, 24);
    append_byte(append_byte(append_byte(a, b), c), d)
}

fn reverse_each(table: &[u8; 256], words: [u32; 4]) -> [u32; 4]
    requires { table.now ≡ reversed_bytes }
    ensures { result ≡ map (reversed 32) words }
{
    words.map(|x| reverse(table, x))
}

// Four words, each with its 32 bits in the other order. In one go, so that the table is laid out once.
pub fn reverse_words(words: [u32; 4]) -> [u32; 4]
    ensures { result ≡ map (reversed 32) words }
{
    reverse_each(&REVERSED, words)
}
