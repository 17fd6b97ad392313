// No code: what a host that dies leaves, and that the mender of order 11 brings it back.
#![tactic(auto)]
