// No code. Demand 3: stated in specs/Consistent.antt, proved of the definition in proofs/.
#![tactic(auto)]
