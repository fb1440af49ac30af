// No code: the theorems over the definitions of `model` stand in proofs/.
#![tactic(auto)]
