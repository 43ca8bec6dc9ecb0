// The lines of a whole table: read from a text into the lent slices, counted, and written into a lent buffer (01, "Calls" and "Text").
#![tactic(auto)]

pub mod fill; // fill.rt: the two passes of read
pub mod length; // length.rt: the bytes of a table's lines
pub mod print; // print.rt: the lines of a table written
