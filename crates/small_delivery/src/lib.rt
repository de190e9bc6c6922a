// A small delivery, its tables word by word, and the form of a case: what the cases share. See specs/.
#![tactic(auto)]
