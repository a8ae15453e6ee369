// No code. What a call that may pause comes to stands in specs/, that it comes to what the call that can't pause answers is proved in proofs/.
#![tactic(auto)]
