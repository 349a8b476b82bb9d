// The published machine, and that ours makes the same runs. Definitions and theorems; there are no functions here.
#![tactic(auto)]
