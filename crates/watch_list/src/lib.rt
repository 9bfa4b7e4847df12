// A watch list and how it lies in bytes: definitions and their laws, no code.
#![tactic(auto)]
