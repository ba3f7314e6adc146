// Theorems about the writer's answer and output, in proofs/. There is no code here.
#![tactic(auto)]
