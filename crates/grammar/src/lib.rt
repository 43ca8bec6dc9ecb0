// The separators of the text (01, "Text"): "Lines end in LF (byte 10), fields are parted by one tab."
#![tactic(auto)]

pub const LF: u8 = b'\n';

pub const TAB: u8 = b'\t';
