// Edges that two regular cells of one level share: what one family joins, another does too. There is no code here: see specs/.
#![tactic(auto)]
