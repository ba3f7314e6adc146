// What ccfbline prints, proved over the calls that it makes: definitions and theorems alone. The code is that of
// `intake` and `line`.
#![tactic(auto)]
