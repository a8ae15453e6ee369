// No code. The laws of every join and of every test of equality, proved in proofs/; what is asked of them is in specs/Join.antt, document 01's
// marked cases in specs/Marked.antt.
#![tactic(auto)]
