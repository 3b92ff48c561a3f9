// The sender's half for Monosync and Bisync over stories of events on a chip: how a block is sent. Statements and
// proofs alone. Assumes nothing.
#![tactic(auto)]
