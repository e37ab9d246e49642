// The rounds of a split step. There is no code here: see specs/.
#![tactic(auto)]
