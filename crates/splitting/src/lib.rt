// A split table as the rounds see it: cells by number, slots for edges, flags that are the new red cells. There is no code here: see
// specs/.
#![tactic(auto)]
