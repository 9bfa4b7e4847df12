// Lists of calls with the figures that document 01's 'Traffic and its two figures' gives them: the table in specs/, its theorem in proofs/, no code.
#![tactic(auto)]
