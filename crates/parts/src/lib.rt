// Owners of cells, the masters and ghosts of a part, and merging. There is no code here: see specs/.
#![tactic(auto)]
