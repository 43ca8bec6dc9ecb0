// The tables by their numbers: four records in one number, the rows at the start, and the marks.
use lossless_trials::draws::drawn;
use reset_trials::rows::Rows;

// What records there are: a kind, and a digit for each of t, a, b, p and c. A digit 4l + m stands for the numbers from l to l + m: 2 for rows 0 to 2, of
// width 1, c for row 3, of width 2, 3 for any row, and 4, 8 and c for one, two and three cells.
const FORMS: [u64; 55] = [
    0x00_22000, // copy
    0x00_cc000, 0x01_22000, // not
    0x01_cc000, 0x02_22200, // and
    0x02_ccc00, 0x03_22200, // or
    0x03_ccc00, 0x04_22200, // xor
    0x04_ccc00, 0x05_22030, // shl
    0x05_cc030, 0x06_22030, // lshr
    0x06_cc030, 0x07_22030, // ashr
    0x07_cc030, 0x08_22030, // rotl
    0x08_cc030, 0x09_22000, // extract
    0x09_2c010, 0x09_cc000, 0x0a_c2200, // concat
    0x0b_22000, // zext
    0x0b_c2000, 0x0b_cc000, 0x0c_22000, // sext
    0x0c_c2000, 0x0c_cc000, 0x0d_22200, // add
    0x0d_ccc00, 0x0e_22200, // sub
    0x0e_ccc00, 0x0f_22000, // neg
    0x0f_cc000, 0x10_22200, // mul
    0x10_ccc00, 0x11_22200, // eq
    0x11_2cc00, 0x12_22200, // ult
    0x12_2cc00, 0x13_22200, // slt
    0x13_2cc00, 0x14_22202, // ite
    0x14_ccc02, 0x15_c2200, // umulw
    0x16_c2200, // smulw
    0x17_c2200, // sumulw
    0x18_23042, // load
    0x18_23081, 0x18_230c0, 0x18_c304c, 0x19_03242, // store
    0x19_03281, 0x19_032c0, 0x19_03c4c,
];

// One of the numbers that a digit of a form stands for. The last digit is digit 0.
fn chosen(form: u64, table: u64, j: u64, k: u64) -> u64 {
    let digit = (form >> (k % 5 * 4)) % 16;
    digit / 4 + drawn(table, j, k, digit % 4 + 1)
}

// Record j of a table: its kind, then t, a, b, p and c in two bits each.
fn drawn_record(table: u64, j: u64) -> u64 {
    let i = drawn(table, j, 5, 55) as usize;
    let form = FORMS[i];
    let t = chosen(form, table, j, 4);
    let a = chosen(form, table, j, 3);
    let b = chosen(form, table, j, 2);
    let p = chosen(form, table, j, 1);
    let c = chosen(form, table, j, 0);
    (form >> 20 << 10) | t << 8 | a << 6 | b << 4 | p << 2 | c
}

// The records of a table, 16 bits each, the first one lowest.
pub fn drawn_records(table: u64) -> u64 {
    let low = drawn_record(table, 0) | drawn_record(table, 1) << 16;
    low | drawn_record(table, 2) << 32 | drawn_record(table, 3) << 48
}

// The rows of a table at the start.
pub fn drawn_rows(table: u64) -> Rows {
    let mask = drawn(table, 4, 0, 256) & 0b11_01_01_01;
    let value = drawn(table, 4, 1, 256) & 0b11_01_01_01;
    Rows {
        mask,
        value: (value | mask) ^ mask,
    }
}

// The marks of a table, 0 or 1 in two bits each.
pub fn drawn_marks(table: u64) -> u64 {
    drawn(table, 4, 2, 256) & 0b01_01_01_01
}
