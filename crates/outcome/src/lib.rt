// What a whole exchange between the stores of a split leads to. There is no code here: see specs/.
#![tactic(auto)]
