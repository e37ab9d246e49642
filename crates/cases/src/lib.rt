// The cases of docs/METHOD.md, section 14, one table. There is no code here: see specs/.
#![tactic(auto)]
