// Ports and checkers that document 01 says are to be rejected: none of them keeps the contracts. No code.
#![tactic(auto)]
