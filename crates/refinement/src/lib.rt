// No functions: that the build as the code keeps it agrees with the list of its links, in proofs/.
#![tactic(auto)]
