// The day file: free notes come first, a row for each job next, a trailer of 10 bytes last. Numbers have two bytes, the low one first.
#![tactic(auto)]

pub mod reader;

pub use reader::{Header, Reading, read};

// A row's bytes: release and deadline.
pub const ROW: usize = 4;

// The trailer's bytes: count, slots, wake, distance back to the first row, mark.
pub const TRAILER: usize = 10;

// The two bytes at the end of every day file, 80 and 76, as a number.
pub const MARK: u16 = 19536;
