// Names of groups of any item, and the naming book over a network. Definitions in specs/, laws in proofs/, no code.
#![tactic(auto)]
