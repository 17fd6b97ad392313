// No code: demand 3 said of the code, by the contracts of the public calls and of the checker.
#![tactic(auto)]
