// The kinds as code: their number, and what each uses and asks of the widths, as the kinds' descriptions say.
// A description is a digit of two bits to each kind, kind 0 the last: a shift reads it, and no table lies in memory. There is room for 32 kinds.
#![tactic(auto)]

ghost use Rattle.std.specs.Prelude.{◌&&◌, ◌≡◌, ◌+◌, ◌≤◌, ◌<◌, T, eqb, length, get_or};
ghost use Rattle.std.proofs.lemmas.List.Edits.{sets};
ghost use Rattle.operations.specs.Limits.{record_words};
ghost use Rattle.operations.specs.Kind.{is_base};
ghost use Rattle.operations.specs.Kinds.{is_kind, kind_of};
ghost use Rattle.operations.specs.Record.{words_of};
ghost use Rattle.operations.specs.Encoding.{digit_of, use_told, word_class, rule_model};

pub mod descriptions; // descriptions.rt: what the descriptions say, by name
pub mod kind; // kind.rt: the kinds by name

use descriptions::{WidthRule, WordClass, WordUse, class_of, rule_of, use_of};
use kind::Kind;

// A record by its words: kind, target row t, operand rows a and b, parameter p, and the sixth word c, a base row or the condition.
#[derive(Clone, Copy)]
pub struct Record {
    pub kind: u32,
    pub t: u32,
    pub a: u32,
    pub b: u32,
    pub p: u32,
    pub c: u32,
}

// Words in a record.
pub const RECORD_WORDS: usize = 6;

// The words of a record, put into the slice from `at` on.
pub fn put_record(words: &mut [u32], at: usize, r: Record)
    requires { at + record_words ≤ length words.old }
    ensures { words.new ≡ sets words.old at (words_of r) }
{
    words[at] = r.kind;
    words[at + 1] = r.t;
    words[at + 2] = r.a;
    words[at + 3] = r.b;
    words[at + 4] = r.p;
    words[at + 5] = r.c;
}

// How many kinds there are.
pub const KINDS: u32 = Kind::Store as u32 + 1;

// The kinds that have cells, the last two.
pub const LOAD: u32 = Kind::Load as u32;

pub const STORE: u32 = Kind::Store as u32;

// What the word b is to each kind: 0 nothing, 1 a row, 2 a number, 3 of cells: how many, or their base row.
const SECOND: u64 = 0b01_00_01_01_01_01_01_01_01_01_00_01_01_00_00_01_00_00_00_00_00_01_01_01_00_00;

// The same of the word p.
const PARAMETER: u64 =
    0b11_11_00_00_00_00_00_00_00_00_00_00_00_00_00_00_10_10_10_10_10_00_00_00_00_00;

// The same of the sixth word.
const SIXTH: u64 = 0b11_11_00_00_00_01_00_00_00_00_00_00_00_00_00_00_00_00_00_00_00_00_00_00_00_00;

// Which of these words each kind uses: 0 none, 1 b, 2 p, 3 b and the sixth. Of the kinds with cells it says nothing.
const CLASSES: u64 =
    0b01_00_01_01_01_11_01_01_01_01_00_01_01_00_00_01_10_10_10_10_10_01_01_01_00_00;

// Whether operands named twice are one number to each kind: 0 no, 1 yes.
const CORRELATED: u64 =
    0b00_00_00_00_00_01_01_01_01_00_00_01_01_00_00_01_00_00_00_00_00_01_01_01_00_00;

// The width rule of each kind, in two digits.
const RULES: u64 = 0b11_11_11_11_11_10_01_01_01_01_00_01_01_00_00_11_10_00_00_00_00_01_01_01_00_00;

const RULES_FOURS: u64 =
    0b01_01_00_00_00_01_01_01_01_00_00_00_00_01_01_00_00_00_00_00_00_00_00_00_00_00;

// The length of each kind's name, in two digits.
const LENGTHS: u64 =
    0b01_00_10_01_01_11_11_11_10_11_11_11_11_00_00_10_11_00_00_00_11_11_10_11_11_00;

const LENGTHS_FOURS: u64 =
    0b01_01_01_01_01_00_00_00_00_00_00_00_00_01_01_01_01_01_01_01_00_00_00_00_00_01;

// The names, by kind, eight bytes to each.
const NAMES: [u8; KINDS as usize * 8] =
    *b"copy    not     and     or      xor     shl     lshr    ashr    rotl    extract concat  zext    sext    add     sub     neg     mul     eq      ult     slt     ite     umulw   smulw   sumulw  load    store   ";

// Whether there is a kind of that number.
pub fn is_kind(kind: u32) -> bool
    ensures { result ≡ is_kind kind }
{
    kind < KINDS
}

// The digit of a kind.
fn digit(word: u64, kind: u32) -> u64
    requires { kind < 32 }
    ensures { result ≡ digit_of word kind }
{
    (word >> (kind * 2)) % 4
}

// What the word b is to a kind.
pub fn second_use(kind: u32) -> WordUse
    requires { T (is_kind kind) }
    ensures { result ≡ use_told (kind_of kind).use_b }
{
    use_of(digit(SECOND, kind))
}

// The same of the word p.
pub fn parameter_use(kind: u32) -> WordUse
    requires { T (is_kind kind) }
    ensures { result ≡ use_told (kind_of kind).use_p }
{
    use_of(digit(PARAMETER, kind))
}

// The same of the sixth word.
pub fn sixth_use(kind: u32) -> WordUse
    requires { T (is_kind kind) }
    ensures { result ≡ use_told (kind_of kind).use_c }
{
    use_of(digit(SIXTH, kind))
}

// Which of the words b, p and the sixth a kind without cells uses.
pub fn word_class(kind: u32) -> WordClass
    requires { T (is_kind kind) }
    ensures { result ≡ word_class (kind_of kind) }
{
    class_of(digit(CLASSES, kind))
}

// Whether a kind is a load or a store, which have cells.
pub fn has_cells(kind: u32) -> bool
    requires { T (is_kind kind) }
    ensures { result ≡ is_base (kind_of kind).use_c }
{
    LOAD <= kind
}

// Whether the words a and b of a record of that kind name one row, and both operands are then one number. One comparison tells both: the bits in which
// the words differ, taken as a number, are below the digit only where there are none and the digit is 1.
pub fn named_twice(kind: u32, a: u32, b: u32) -> bool
    requires { T (is_kind kind) }
    ensures { result ≡ ((kind_of kind).correlated && eqb a b) }
{
    ((a ^ b) as u64) < digit(CORRELATED, kind)
}

// The width rule of a kind.
pub fn rule(kind: u32) -> WidthRule
    requires { T (is_kind kind) }
    ensures { rule_model result ≡ (kind_of kind).rule }
{
    rule_of(digit(RULES, kind) + digit(RULES_FOURS, kind) * 4)
}

// The length of a kind's name.
pub fn name_len(kind: usize) -> usize
    requires { T (is_kind kind) }
    ensures { result ≡ length (kind_of kind).name }
{
    let k = kind as u32;
    (digit(LENGTHS, k) + digit(LENGTHS_FOURS, k) * 4) as usize
}

// A byte of it.
pub fn name_byte(kind: usize, i: usize) -> u8
    requires { T (is_kind kind) × (i < length (kind_of kind).name) }
    ensures { result ≡ get_or (kind_of kind).name i 0 }
{
    NAMES[kind * 8 + i]
}
