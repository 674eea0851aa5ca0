// The working table: its words, laid out column by column, and the merging of named groups in them.
#![tactic(auto)]

pub mod merge;
pub mod words;
