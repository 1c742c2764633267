// Theorems on texts as lists of code points; there is no code.
#![tactic(auto)]
