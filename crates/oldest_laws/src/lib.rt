// Theorems about `oldest::oldest`; no code.
#![tactic(auto)]
