// No code: the walk along a path, and its laws.
#![tactic(auto)]
