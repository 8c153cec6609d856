// Definitions and laws: a path as a grammar and the shapes of a matrix, and that the reading agrees. There is no code here.
#![tactic(auto)]
