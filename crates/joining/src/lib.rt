// Theorems alone: done stores of all parts, in any order, merge to the table that their masters are of. See specs/.
#![tactic(auto)]
