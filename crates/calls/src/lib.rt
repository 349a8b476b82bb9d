// The calls on a session, and what each answers on the plain machine. Definitions and theorems; there are no functions here.
#![tactic(auto)]
