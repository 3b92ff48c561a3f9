//! No code to run: specs/ holds tales of a receiver and its queue, computed, which no wrong chip tells.
#![tactic(auto)]
