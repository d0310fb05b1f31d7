// Document 01's limits as the code names them. The definitions name the same in specs/.

#![tactic(auto)]

// A record: 80 bytes of text and a line feed.
pub const RECORD_BYTES: usize = 81;

pub type Record = [u8; RECORD_BYTES];

pub const MOST_RECORDS: usize = 200_000;

pub const MOST_ASSIGNMENTS: usize = 500;

// Room for the five figures of each assignment, and of what stands before the first.
pub const FIGURE_SLOTS: usize = 2505;

// Sums in øre: the amount of one transaction of type 04; an assignment of service 04; an assignment of service 01, a file, and each sum of sub-specifications.
pub const MOST_OF_TYPE_04: u64 = 9_999_999_999;

pub const MOST_OF_SERVICE_04: u64 = 9_999_999_999_999;

pub const MOST_OF_ALL: u64 = 99_999_999_999_999_999;

// A message: the places taken and the records without a place together.
pub const MOST_IN_MESSAGE: u64 = 42;
