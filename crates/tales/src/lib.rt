//! No code to run: specs/ holds how a tale is told of a chip, in short words for its events, and how a wrong chip is made that a tale refuses.
#![tactic(auto)]
