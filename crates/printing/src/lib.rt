// Words, numbers and lines written into a lent buffer (01, "Text").
#![tactic(auto)]

pub mod put; // put.rt: words, numbers and row lines written
pub mod records; // records.rt: record lines written
