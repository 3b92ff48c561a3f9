//! No code to run: specs/ holds demand 3's abort, from the sender's write to what another chip tells.
#![tactic(auto)]
