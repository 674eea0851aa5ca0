// Walks by hand: how a walk of a function's code begins, calls, loops and ends. Laws in proofs/, no code.
#![tactic(auto)]
