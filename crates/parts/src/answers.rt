// Answers, and what a refusal changes.
ghost use Rattle.std.specs.Prelude.{◌≡◌, ℕ, List, Ok};
ghost use Rattle.refusals.specs.declared.Response.TheVariants.{Nothing};
ghost use Rattle.refusals.specs.Refusals.{number_of, number_in};
ghost use Rattle.parts.specs.Cores.{raised_core};
ghost use Rattle.parts.specs.Answers.{plain, no_figures, taken, accepted, refusal, refusal_change, response_of};
ghost use Rattle.parts.specs.Code.Struct.{core_from, answer_of, shown};

use crate::{Accepted, Answer, Core, Figures};
use common::{SLAVE_ILLEGAL_BURST, SLAVE_UNEXPECTED_COMPLETION};
use refusals::{Refusal, Response, refusal_response};

// The response of AXI's coding.
#[tactic(auto, unfolding(crate::specs::Answers::response_of))]
pub fn response_of(code: u32) -> Response
    ensures { result ≡ response_of code }
{
    match code {
        0 => Response::Okay,
        3 => Response::Decerr,
        _ => Response::Slverr,
    }
}

impl Figures {
    // Those of every answer but an accepted release's.
    pub fn none() -> Figures
        ensures { result ≡ no_figures }
    {
        Figures { session: 0 }
    }
}

impl Accepted {
    // With a data word.
    #[tactic(auto, unfolding(crate::specs::Answers::accepted))]
    pub fn with_word(response: Response, slot: u32, length: usize, value: u32) -> Accepted
        ensures { answer_of (Ok result) ≡ accepted response slot length value }
    {
        Accepted {
            response,
            slot,
            length,
            word: value,
            figures: Figures::none(),
        }
    }

    // Without a data word.
    pub fn sent(response: Response, slot: u32, length: usize) -> Accepted
        ensures { answer_of (Ok result) ≡ accepted response slot length 0 }
    {
        Accepted::with_word(response, slot, length, 0)
    }

    // Of an event that sends nothing.
    pub fn plain() -> Accepted
        ensures { answer_of (Ok result) ≡ accepted Nothing 0 0 0 }
    {
        Accepted::sent(Response::Nothing, 0, 0)
    }

    // What a refused event shows beside its number, which need not stand in the table.
    #[tactic(auto, unfolding(crate::specs::Answers::refusal, crate::specs::Answers::accepted))]
    pub fn refused(n: u32) -> Accepted
        ensures { shown n result ≡ refusal n }
    {
        Accepted {
            response: refusal_response(n),
            ..Accepted::plain()
        }
    }

    // What an event that sends nothing shows beside its number.
    pub fn plain_of(n: u32) -> Accepted
        ensures { shown n result ≡ plain n }
    {
        if n == 0 {
            Accepted::plain()
        } else {
            Accepted::refused(n)
        }
    }

    // What an answer shows beside its number.
    pub fn of(answer: Answer) -> Accepted
        ensures { shown (number_in answer) result ≡ answer_of answer }
    {
        match answer {
            Ok(a) => a,
            Err(why) => Accepted::refused(why.number()),
        }
    }

    // Of a release.
    #[tactic(auto, unfolding(crate::specs::Answers::taken))]
    pub fn taken(response: Response, word: u32, figures: Figures) -> Accepted
        ensures { answer_of (Ok result) ≡ taken response word figures }
    {
        Accepted {
            response,
            slot: 0,
            length: 0,
            word,
            figures,
        }
    }
}

impl Core {
    // A decode bit is set.
    #[tactic(auto, unfolding(crate::specs::Cores::raised_core))]
    pub fn raise(&mut self, bit: u32)
        ensures { (cells : List ℕ) → core_from self.new cells ≡ raised_core bit (core_from self.old cells) }
    {
        self.registers = self.registers.raise(bit);
    }

    // What the row of a number changes, which need not stand in the table.
    #[tactic(auto, using(crate::proofs::Changes::other_number_keeps), unfolding(crate::specs::Answers::refusal_change))]
    pub fn change(&mut self, n: u32)
        ensures { (cells : List ℕ) → core_from self.new cells ≡ refusal_change n (core_from self.old cells) }
    {
        if n == Refusal::WrongBurst.number() {
            self.raise(SLAVE_ILLEGAL_BURST);
        } else if n == Refusal::NotExpected.number() {
            self.raise(SLAVE_UNEXPECTED_COMPLETION);
        }
    }

    // A refused event, with what its row of the refusal table changes.
    pub fn refuse(&mut self, why: Refusal) -> Answer
        ensures core { (cells : List ℕ) → core_from self.new cells ≡ refusal_change (number_of why) (core_from self.old cells) }
        ensures answer { answer_of result ≡ refusal (number_of why) }
    {
        self.change(why.number());
        Err(why)
    }
}
