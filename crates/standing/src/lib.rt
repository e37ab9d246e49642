// What a part's store stands for in an exchange. There is no code here: see specs/.
#![tactic(auto)]
