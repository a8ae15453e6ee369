// No code. The definition, evaluated on small descriptions: see specs/.
#![tactic(auto)]
