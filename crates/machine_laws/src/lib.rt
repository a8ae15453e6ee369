// No code. Theorems about the worklist machine, over any state, facts, join and rule; and what a run keeps: see proofs/.
#![tactic(auto)]
