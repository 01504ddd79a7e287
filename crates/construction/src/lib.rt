// No functions: the certificate of a plan as a definition, in specs/, and that every rule for its kind holds, in proofs/.
#![tactic(auto)]
