// The rules of docs/METHOD.md on coarse meshes, tables and steps. There is no code here: see specs/.
#![tactic(auto)]
