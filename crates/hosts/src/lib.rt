//! No code to run: specs/ holds demand 3 of every host: whatever it writes and whenever, the line is the frame of the bytes loaded.
#![tactic(auto)]
