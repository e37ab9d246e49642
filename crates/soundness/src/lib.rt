// The table that a step makes of a sound one is sound. There is no code here: see specs/.
#![tactic(auto)]
