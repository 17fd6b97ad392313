// The call script (docs/REPLAY.md) without its calls: a command's size and its parts, the record of what a call answers, its line.
//
// A command is read in a place of COMMAND bytes, the length of the longest but for those that bring an arena; zeros stand behind it.
//
// What is kept between two runs stands in a lent desk:
//   0     the table's bytes
//   4402  the arena's length, u64
//   4410  the place in the script, u64
//   4418  1 once the script has ended
#![tactic(auto)]

pub mod args;
pub mod desk;
pub mod lines;
pub mod record;
pub mod shape;
pub mod text;

pub const COMMAND: usize = 8218;
