// Steps for proofs that walk a function's MIR (proofs/). There is no code.
#![tactic(auto)]
