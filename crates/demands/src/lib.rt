//! No code to run: specs/ holds what the three demands say together, of two chips on one line.
#![tactic(auto)]
