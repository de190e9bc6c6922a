// The definitions of soundness, the desk's questions, names and lines, and amendments, run on cases: see specs/.
#![tactic(auto)]
