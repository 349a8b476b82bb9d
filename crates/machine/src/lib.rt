// The machine: its states, rules and steps, and what a step carries. Definitions and theorems; there are no functions here.
#![tactic(auto)]
