// Laws over the definitions of document 01: amendments. See proofs/.
#![tactic(auto)]
