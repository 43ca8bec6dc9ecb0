// Numbers that 01, and 02, request 11, set.

// The bytes of the header.
pub const HEADER_BYTES: usize = lines::opening::HEADER;

// The most bytes of a row line.
pub const ROW_BYTES: usize = 44;

// The most bytes of a record line.
pub const RECORD_BYTES: usize = 27;

// The most bytes of a text that read takes.
pub const TEXT_LIMIT: usize = 40000;
