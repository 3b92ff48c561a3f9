//! No code to run: specs/ holds what a story of events is, what is seen of one, and stories computed, which no wrong chip tells.
#![tactic(auto)]
