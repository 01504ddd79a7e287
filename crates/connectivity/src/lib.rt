// No functions: definitions stand in specs/, theorems in proofs/.
#![tactic(auto)]
