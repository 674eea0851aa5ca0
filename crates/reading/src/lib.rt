// Reading a journal: what stands at a place of its bytes, and the reader over the caller's journal.
#![tactic(auto)]

pub mod read;
pub mod reader;

// The most bytes that a journal may have.
pub const LONGEST: usize = 65536;
