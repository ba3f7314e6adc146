// Theorems alone, in proofs/: what a reader of written feedback sees of the calls that were made.
#![tactic(auto)]
