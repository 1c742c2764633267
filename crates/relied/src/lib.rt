// Theorems that callers of the C ABI rely on; there is no code.
#![tactic(auto)]
