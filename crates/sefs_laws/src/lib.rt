// No code: which reasons the steps of `sefs` give, and what they do to the table of open nodes, on any state.
#![tactic(auto)]
