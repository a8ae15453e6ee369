// No code. An accepted run has validated every state that its report is made from: see proofs/.
#![tactic(auto)]
