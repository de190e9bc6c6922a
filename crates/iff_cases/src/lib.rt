// Document 01's definitions run on cases: see specs/.
#![tactic(auto)]
