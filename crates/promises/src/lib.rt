//! No code to run: specs/ holds refusals by the paper's table, what an event on one channel leaves of the other, and that a contract allows
//! one result; Laws prove the first two of the chip's events.
#![tactic(auto)]
