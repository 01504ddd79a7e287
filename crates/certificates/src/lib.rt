// No functions: what a certificate record is, in specs/, and what its reading accepts, in proofs/.
#![tactic(auto)]
