// The worked cases of document 01 as one proved table over the definitions, and further cases. They stand in proofs/; there is no code here.

#![tactic(auto)]
