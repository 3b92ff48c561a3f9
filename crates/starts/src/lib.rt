//! No code to run: specs/ holds where demand 3's start comes from: the tick that begins a flag, and the flag's own bits.
#![tactic(auto)]
