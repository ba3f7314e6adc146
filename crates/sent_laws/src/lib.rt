// When each call of a sender gives which answer: definitions and theorems alone. The code is that of the `sent_` crates.
#![tactic(auto)]
