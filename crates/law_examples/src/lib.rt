// Texts that show, by computation, that the demands are not empty. There is no code here.
#![tactic(auto)]
