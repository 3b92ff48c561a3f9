// Monosync and Bisync, a block from one chip to another, and stories that meet what is asked of either. Proofs alone.
// Assumes nothing.
#![tactic(auto)]
