// Finite sums, lists by index and the first-index search: definitions in specs/, laws in proofs/, no code.
#![tactic(auto)]
