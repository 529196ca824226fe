// The demands of document 01 as theorems about the calls on bytes: definitions in specs/, proofs in proofs/, and no code.
#![tactic(auto)]
