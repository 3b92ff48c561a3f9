//! No code to run: specs/ holds tales of resets and of changes of mode, computed, which no wrong chip tells.
#![tactic(auto)]
