// No code. Facts about the 66 rules, checked by computation over the whole table: see proofs/.
#![tactic(auto)]
