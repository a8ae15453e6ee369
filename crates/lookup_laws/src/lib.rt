// No code. What a lookup finds in the report of an accepted call: see proofs/.
#![tactic(auto)]
