// What each old cell keeps in a step, and the step's statuses from it. There is no code here: see specs/.
#![tactic(auto)]
