// definitions: see specs/
#![tactic(auto)]
