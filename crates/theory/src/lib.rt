// Laws of the definitions of the model: statements in specs/, proofs in proofs/; no code.
#![tactic(auto)]
