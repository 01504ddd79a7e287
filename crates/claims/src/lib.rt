// No functions: the demands, each as a theorem, and document 01's barns, in proofs/.
#![tactic(auto)]
