// The stores of a split, after any lawful list of calls. There is no code here: see specs/.
#![tactic(auto)]
