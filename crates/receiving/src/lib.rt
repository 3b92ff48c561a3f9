//! No code to run: specs/ holds demand 2, receiving: its statement and its proof.
#![tactic(auto)]
