// The store of a split has the columns of the task. There is no code here: see specs/.
#![tactic(auto)]
