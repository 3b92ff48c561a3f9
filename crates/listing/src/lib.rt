//! No code to run: specs/ holds tales of a list and of the zeros in a note's frame, computed, which no wrong reading tells.
#![tactic(auto)]
