// Only specs/ and proofs/ have text; no code is added.
#![tactic(auto)]
