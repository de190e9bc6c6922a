// Laws over the definition of a sheet (proofs/). No code, and nothing stands on them.
#![tactic(auto)]
