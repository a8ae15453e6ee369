// No code. What good form says of a description: stated in specs/Good.antt, proved in proofs/.
#![tactic(auto)]
