// The meaning of a store by its history: definitions and theorems alone. The code is that of `arrivals` and `store`.
#![tactic(auto)]
