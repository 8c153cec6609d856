// The demands on the intake, as laws; there is no code here. specs/ states them, proofs/ proves them.
#![tactic(auto)]
