// The numbers of a plain run, in one number as the values of rows are: row i has the bits from 2i on.
ghost use Rattle.std.specs.Prelude.{◌^◌, ◌<◌, ◌≤◌};

use crate::records::{Record, shape, with_number};
use oracle::cells::{load_number, store_number};
use oracle::numbers::power;
use oracle::plain::plain;
use oracle::shapes::{LOAD, STORE};

// The number of row i.
pub fn number_at(numbers: u64, i: u64) -> u64 {
    numbers / power(i % 4 * 2) % 4
}

// x where it has w bits, else 0.
fn bits(x: u64, w: u64) -> u64
    requires { w ≤ 32 }
    ensures { (result < 2 ^ w) × (result < 4294967296) }
{
    let end = power(w);
    if x < end {
        return x;
    }
    0
}

// The target's number after a record that is no store.
fn result(w: u64, r: Record, numbers: u64) -> u64 {
    let a = number_at(numbers, r.a);
    if r.kind == LOAD {
        return load_number(2, a, number_at(numbers, r.c % 4 + a % 4));
    }
    let s = shape(w, r.kind);
    let b = number_at(numbers, r.b);
    plain(s, bits(a, s.wa), bits(b, s.wb), number_at(numbers, r.c))
}

// The numbers after a record.
pub fn numbers_after(w: u64, r: Record, numbers: u64) -> u64 {
    if r.kind == STORE {
        let a = number_at(numbers, r.a);
        let b = number_at(numbers, r.b);
        let first = store_number(0, a, b, number_at(numbers, 2));
        let second = store_number(1, a, b, number_at(numbers, 3));
        return with_number(with_number(numbers, 2, first), 3, second);
    }
    with_number(numbers, r.t, result(w, r, numbers))
}
