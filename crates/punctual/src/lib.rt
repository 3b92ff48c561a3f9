//! No code to run: specs/ holds that a host in time by the eight-tick rule loads what it wrote, so
//! that demand 3's host is one of all hosts.
#![tactic(auto)]
