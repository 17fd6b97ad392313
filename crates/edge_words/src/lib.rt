// What goes in and out at the C edge as plain numbers: sizes, the words of arguments and of results.
#![tactic(auto)]

pub mod args;
pub mod results;

// Bytes and words, and what a slice of another size is answered with, as in the header.
pub const TABLE: usize = 4402;

pub const FILE_NAME: usize = 16;

pub const CHAINS: usize = 8192;

pub const HANDLE_WORDS: usize = 2;

pub const METADATA_WORDS: usize = 14;

pub const COUNTS_WORDS: usize = 3;

pub const NEXT_WORDS: usize = 1;

pub const LENGTH_WORDS: usize = 1;

pub const WRONG_SIZE: u32 = 255;
