// What adding to a block and uniting two come to, in document 01's words: definitions in specs/, theorems in proofs/, no code.
#![tactic(auto)]
