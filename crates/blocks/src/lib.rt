// The byte-synchronous modes' whole blocks: what is to come on the line, what was heard of it. Definitions and
// laws alone. Assumes nothing.
#![tactic(auto)]
