// What the document promises of the definitions, for a reader: statements in specs/, proofs in proofs/; no code cites them.
#![tactic(auto)]
