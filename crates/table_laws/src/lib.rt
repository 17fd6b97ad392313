// Theorems about the table of open nodes; no code.
#![tactic(auto)]
