//! No code to run: specs/ says what only a channel and a chip with a history have; Laws prove that a reset gives it and every event keeps it.
#![tactic(auto)]
