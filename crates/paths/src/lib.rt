// No code: the full path of a folder, and its laws.
#![tactic(auto)]
