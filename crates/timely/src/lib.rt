//! No code to run: specs/ holds where demand 3 starts, and what a host does in time and otherwise.
#![tactic(auto)]
