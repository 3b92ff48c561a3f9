// How a station drives channel A of a chip to send a note: specs/Drive.antt has the calls, proofs/Laws the proof that the note's frame goes out.
// There is no code here. Assumes nothing.
#![tactic(auto)]
