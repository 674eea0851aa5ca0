// The groups of a network: vertices, edges, components, bridge-blocks and blocks. Definitions in specs/, laws in proofs/, no code.
#![tactic(auto)]
