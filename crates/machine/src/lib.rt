// The bridge as definitions, in specs/: its state, its verbs and one step an event. Only specs/ and proofs/ have text.
#![tactic(auto)]
