// What is proved of whole lists of events stands in specs/ and proofs/; a crate has at least one function.
#![tactic(auto)]

ghost use Rattle.std.specs.Prelude.{◌≡◌};

// The kinds of event that a list may have: calls, completions, ticks, link changes.
pub fn kinds() -> u32
    ensures { result ≡ 4 }
{
    4
}
