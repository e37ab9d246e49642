// The statuses after a step, from the cells before it. There is no code here: see specs/.
#![tactic(auto)]
