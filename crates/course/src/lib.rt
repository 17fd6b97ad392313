// Document 01's course examples: definitions and one theorem, no code.
#![tactic(auto)]
