// No code. Room and steps enough exist: what a run has left stands in specs/, that every taking makes it smaller is proved in proofs/.
#![tactic(auto)]
