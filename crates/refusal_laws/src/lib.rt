// No code. Which numbers a refusal has, and what a refused call leaves: see proofs/.
#![tactic(auto)]
