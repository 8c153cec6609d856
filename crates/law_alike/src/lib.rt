// Definitions and laws of texts that differ only in matrix forms, comments, blank lines and blanks. There is no code here.
#![tactic(auto)]
