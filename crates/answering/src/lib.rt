//! No code to run: specs/ holds the paper's number and values of every answer, and demand 1 of a station's calls.
#![tactic(auto)]
