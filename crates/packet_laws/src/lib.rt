// Theorems about reading and rewriting CCFB packets, in proofs/; there is no code here.
#![tactic(auto)]
