// The laws of the bridge: what its definitions promise together. Only specs/ and proofs/ have text; no code is added.
#![tactic(auto)]
