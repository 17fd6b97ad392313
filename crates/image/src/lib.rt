// No code: the rules on an image by ids, in the middle of a call too, and what each step keeps of them.
#![tactic(auto)]
