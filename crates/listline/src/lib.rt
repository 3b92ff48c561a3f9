// A list's notes, one behind the other, through channel A of a chip: specs/ListLine.antt has the calls and the line that they put out, proofs/Laws the
// proof that it is the line of the list. There is no code here. Assumes nothing.
#![tactic(auto)]
