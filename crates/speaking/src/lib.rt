//! No code to run: specs/ holds tales of a sender, computed, which no wrong chip tells.
#![tactic(auto)]
