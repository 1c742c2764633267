// What an expression means: its grammar and its parser, which are one; there is no code.
#![tactic(auto)]
