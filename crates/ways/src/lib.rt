// Ways over steps that are allowed: the search for one, sets of them in balance, and the two routes that this register gives. Definitions in specs/, laws in proofs/, no code.
#![tactic(auto)]
