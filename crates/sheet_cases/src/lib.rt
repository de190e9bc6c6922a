// The definition of a sheet run on cases worked out by hand (specs/). No code, and nothing stands on them.
#![tactic(auto)]
