// Texts of both dialects: what each means, what is refused and what is written. Definitions and theorems; there are no functions here.
#![tactic(auto)]
