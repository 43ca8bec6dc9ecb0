// Numbers that 01, "Vectors and rows" and "Records" set.

// The most rows of a table, and the most records.
pub const ROW_LIMIT: usize = 256;

pub const RECORD_LIMIT: usize = 1024;

// The greatest width.
pub const WIDTH_LIMIT: u32 = 32;

// The greatest shift, rotation or extract parameter.
pub const PARAMETER_LIMIT: u32 = 31;
