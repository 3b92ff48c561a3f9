//! No code to run: specs/ holds what events do to the sending and the receiving side of a channel, and what a history leaves.
#![tactic(auto)]
