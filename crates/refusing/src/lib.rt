//! No code to run: specs/ holds demand 1: every refusal has its one stated cause and changes nothing.
#![tactic(auto)]
