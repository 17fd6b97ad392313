// No code: zeros and copies inside a file, in pieces of 128 bytes (order 13), and laws on what stores of bytes beside each other make of an arena.
#![tactic(auto)]
