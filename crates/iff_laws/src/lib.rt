// Laws over the definitions of document 01: see specs/.
#![tactic(auto)]
