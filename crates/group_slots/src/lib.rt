// Which counter of a block a slot is in, where its bits lie, and what an addition or another value changes there: proofs, no code.
#![tactic(auto)]
