// What the four stores and the read do to files: definitions and theorems alone.
#![tactic(auto)]
