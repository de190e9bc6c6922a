// Laws over the definitions of the desk's questions: what a request leaves as it was. See proofs/.
#![tactic(auto)]
