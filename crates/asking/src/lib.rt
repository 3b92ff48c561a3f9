//! No code to run: specs/ holds tales of interrupts, vectors and latched status, computed, which no wrong chip tells.
#![tactic(auto)]
