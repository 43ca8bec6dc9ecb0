// The words of records that stand in one number, 16 bits each: the kind, then t, a, b, p and c in two bits each.
use oracle::numbers::word;

// Word k of the first record.
pub fn word_of(records: u64, k: u64) -> u64 {
    if k == 0 {
        return records / 1024 % 64;
    }
    (records >> (10 - k % 6 * 2)) % 4
}

// Word i of all words.
fn word_at(records: u64, i: u64) -> u32 {
    word(word_of(records >> (i / 6 % 4 * 16), i % 6))
}

// The words.
pub fn words_of(records: u64) -> [u32; 24] {
    std::array::from_fn(|i| word_at(records, i as u64))
}
