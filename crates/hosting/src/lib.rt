//! No code to run: specs/ holds tales of hosts that are late, idle or abort, computed, which no wrong chip tells.
#![tactic(auto)]
