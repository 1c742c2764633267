// The compile statement, a theorem about three exports called in a row; there is no code.
#![tactic(auto)]
