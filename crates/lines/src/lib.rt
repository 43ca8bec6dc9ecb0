// Lines of a text and their parts, read from its bytes (01, "Text").
#![tactic(auto)]

pub mod cut; // cut.rt: parts of a text
pub mod fields; // fields.rt: the number that a field tells
pub mod limits; // limits.rt: numbers that 01 sets
pub mod line; // line.rt: what a line tells
pub mod opening; // opening.rt: what the first line says
pub mod records; // records.rt: the record that the fields of a record line tell
pub mod words; // words.rt: words compared
