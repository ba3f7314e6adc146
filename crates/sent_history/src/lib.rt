// What a sender's store means by its history: definitions and theorems alone. The code is that of the `sent_` crates.
#![tactic(auto)]
