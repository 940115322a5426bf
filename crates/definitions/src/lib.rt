// Definitions of document 01 and their laws: `specs/` and `proofs/`. There is no code here.
#![tactic(auto)]
