// Numbers that 01, and 02, request 11, set.

pub const NUMBER_LIMIT: u32 = 999;

// The kinds of the older editions, which have no load and no store.
pub const OLDER_KINDS: u32 = 24;
