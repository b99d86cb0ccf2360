// No code: the demands are stated in proofs/Claims.antt, each closed by one name.
#![tactic(auto)]
