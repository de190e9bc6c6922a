// Law over the definitions of document 01: an accepted load is sound. See proofs/.
#![tactic(auto)]
