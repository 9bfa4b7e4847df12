// The claim over every list of updates through a watch list and takings off, document 02's request 1: definitions in specs/, theorems in proofs/, no code.
#![tactic(auto)]
