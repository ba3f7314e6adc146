// Theorems about the calls of include/ccfb.h that read a packet, in proofs/; there is no code here.
#![tactic(auto)]
