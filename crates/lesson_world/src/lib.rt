// The calls as the lesson's scenes use them, and what several scenes tell.
#![tactic(auto)]

pub mod lines;
pub mod world;
