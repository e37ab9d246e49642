// What each part makes of its cells is its share of the serial step's table. There is no code here: see specs/.
#![tactic(auto)]
