// No code: what is promised of a folder's path on a pair that passed.
#![tactic(auto)]
