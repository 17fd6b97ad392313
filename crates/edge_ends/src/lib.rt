// How a C function ends: the words of its result, and the table's bytes written back.
#![tactic(auto)]

pub mod ends;
