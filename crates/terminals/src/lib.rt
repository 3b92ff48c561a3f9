// Demand 2 for Monosync and Bisync over stories of events on a chip: what a block is to a receiver. Statements and
// proofs alone. Assumes nothing.
#![tactic(auto)]
