// What an image must be: document 01's eight rules, as statements and as tests; definitions and theorems alone.
#![tactic(auto)]
