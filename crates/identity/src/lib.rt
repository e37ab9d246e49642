// A step without marks gives the table that it was given. There is no code here: see specs/.
#![tactic(auto)]
