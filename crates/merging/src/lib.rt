// The masters of all parts, merged, are the serial step's table. There is no code here: see specs/.
#![tactic(auto)]
