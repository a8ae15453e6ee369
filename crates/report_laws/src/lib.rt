// No code. A report read back from its bytes: how, in specs/Read.antt; that it is the same report, in proofs/.
#![tactic(auto)]
