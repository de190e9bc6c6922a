// The rules of document 01 are definitions: see specs/. The answers that they give are types of `iff`.
#![tactic(auto)]
