// The third demand on the intake and the questions, as laws; there is no code here. specs/ states it, proofs/ proves it.
#![tactic(auto)]
