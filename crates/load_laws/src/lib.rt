// Law over a load: what its steps say makes what it promises. See proofs/.
#![tactic(auto)]
