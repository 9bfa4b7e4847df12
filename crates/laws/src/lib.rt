// Laws of tests, shifts and lists that several crates use: proofs alone, no code.
#![tactic(auto)]
