// The marked examples of document 01: specs/Examples.antt has the table, specs/Laws.antt the proof that each is what the definitions give.
// There is no code here. Assumes nothing.
#![tactic(auto)]
