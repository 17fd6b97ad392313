// No code: folders, names and links without bytes, and what naming and unnaming keep.
#![tactic(auto)]
