// No code. How long the listing of an accepted call can be: see proofs/.
#![tactic(auto)]
