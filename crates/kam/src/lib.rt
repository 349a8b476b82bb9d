// Krivine's machine on the same table, and its records in the words that are lent. Definitions and theorems; there are no functions here.
#![tactic(auto)]
