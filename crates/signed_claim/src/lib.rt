// Claims over lists of calls of a signed meter: proofs only.
#![tactic(auto)]
