// Which words are images, and what reading back what was written gives: definitions in specs/, theorems in proofs/, no code.
#![tactic(auto)]
