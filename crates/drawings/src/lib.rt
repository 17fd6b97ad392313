// No code: what a designer was told of her drawings, said in calls and proved; definitions and theorems alone.
#![tactic(auto)]
