//! No code to run: specs/ holds tales of Monosync and Bisync, computed, which no wrong chip tells.
#![tactic(auto)]
