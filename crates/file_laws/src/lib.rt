// Laws over a file: what the verdict of one asks of the others, and what rows the lines of an accepted one leave. See proofs/.
#![tactic(auto)]
