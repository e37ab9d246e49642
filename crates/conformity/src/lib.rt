// In a sound table no leaf edge has a corner in its middle, and leaves meet face to face. There is no code here: see specs/.
#![tactic(auto)]
