// What the course examples do, and the states that they lead through: definitions and theorems, no code.
#![tactic(auto)]
