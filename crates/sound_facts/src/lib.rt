// What soundness gives the questions: each key stands in one row, and hours, days and times are few. There is no code here, laws alone.
#![tactic(auto)]
