// The demands, one file each, by the theorems that meet them. There is no code here: see specs/.
#![tactic(auto)]
