// The mesh over corner numbers is the mesh over weights of docs/METHOD.md. There is no code here: see specs/.
#![tactic(auto)]
