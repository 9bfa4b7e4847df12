// The claim over every list of calls, document 01's 'Traffic and its two figures': definitions in specs/, theorems in proofs/, no code.
#![tactic(auto)]
