//! No code to run: specs/ says in 01's words what a channel reset and a change of mode do and leave, which bits of a WR4 are refused, and
//! which events touch the other channel's sources in service; Laws prove it of the chip.
#![tactic(auto)]
