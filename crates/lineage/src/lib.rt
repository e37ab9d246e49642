// A step by the cell numbers of the old table, and which cells of the new one are cells of the old. There is no code here: see specs/.
#![tactic(auto)]
