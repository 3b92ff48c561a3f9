//! No code to run: specs/ holds demand 3, sending: the frame, the underrun, and the flag that opens the next frame.
#![tactic(auto)]
