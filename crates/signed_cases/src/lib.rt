// Lists of calls of a signed meter with the counters and estimates that document 02's request 3 gives them, and its numbers: the tables in
// specs/, their theorems in proofs/, no code.
#![tactic(auto)]
