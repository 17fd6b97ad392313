// What the lesson prints of no call: words and numbers, and what an image's bytes tell. It stands apart from the calls, which cost much to load.
#![tactic(auto)]

pub mod lines;
pub mod raw;
pub mod say;
