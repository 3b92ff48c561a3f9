//! No code to run: specs/ holds what RR0 D6 shows of the underrun latch, from the moment it is set
//! until it is cleared.
#![tactic(auto)]
