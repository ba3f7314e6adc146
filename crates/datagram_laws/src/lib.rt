// Theorems about datagrams and the calls of include/ccfb.h that find packets in them, in proofs/; there is no code here.
#![tactic(auto)]
