// Lists of updates through a watch list and takings off, with what is listed after them: definitions in specs/, proved by computation in proofs/, no code.
#![tactic(auto)]
