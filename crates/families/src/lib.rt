// Facts that hold at each of the 64 families. There is no code here: see specs/.
#![tactic(auto)]
