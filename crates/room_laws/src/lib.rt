// Theorems about the output that is enough for the writer at any limit, in proofs/. There is no
// code here.
#![tactic(auto)]
