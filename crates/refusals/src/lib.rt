// 01's refusal table: why a call is refused, and what it reports to the AXI side.
#![tactic(auto)]

ghost use Rattle.std.specs.Prelude.{◌≡◌};
ghost use Rattle.refusals.specs.Table.{refusal_response};
ghost use Rattle.refusals.specs.Refusals.{number_of};
ghost use Rattle.refusals.specs.Responses.{code_of};

// What a call reports to the AXI side.
#[derive(Clone, Copy, Debug, PartialEq, Eq)]
pub enum Response {
    Nothing,
    Okay,
    Slverr,
    Decerr,
    Wait,
}

// Why a call is refused: the rows of the table, in the order of their numbers.
#[derive(Clone, Copy, Debug, PartialEq, Eq)]
pub enum Refusal {
    Setting,
    NoWindow,
    WrongBurst,
    LinkDown,
    ConfigBusy,
    SlotsUsed,
    FewTags,
    TooShort,
    OffsetOver,
    NotRouted,
    WrongDevice,
    Malformed,
    NotExpected,
    NotFinished,
    WrongData,
}

impl Response {
    // Its number: AXI's coding where the bus has one. Kept: a `match`, as below.
    pub fn code(self) -> u32
        ensures { result ≡ code_of self }
    {
        match self {
            Response::Okay => 0,
            Response::Slverr => 2,
            Response::Decerr => 3,
            Response::Nothing => 4,
            Response::Wait => 5,
        }
    }
}

impl Refusal {
    // Its number in the table. Kept: a `match` and no cast, in which the column is seen.
    pub fn number(self) -> u32
        ensures { result ≡ number_of self }
    {
        match self {
            Refusal::Setting => 1,
            Refusal::NoWindow => 2,
            Refusal::WrongBurst => 3,
            Refusal::LinkDown => 4,
            Refusal::ConfigBusy => 5,
            Refusal::SlotsUsed => 6,
            Refusal::FewTags => 7,
            Refusal::TooShort => 8,
            Refusal::OffsetOver => 9,
            Refusal::NotRouted => 10,
            Refusal::WrongDevice => 11,
            Refusal::Malformed => 12,
            Refusal::NotExpected => 13,
            Refusal::NotFinished => 14,
            Refusal::WrongData => 15,
        }
    }

    // Its response.
    pub fn response(self) -> Response
        ensures { result ≡ refusal_response (number_of self) }
    {
        refusal_response(self.number())
    }
}

// The response column, for every number: 0 is accepted, and past the table there is no row.
#[tactic(auto, unfolding(crate::specs::Table::refusal_response))]
pub fn refusal_response(n: u32) -> Response
    ensures { result ≡ refusal_response n }
{
    match n {
        2 | 9 => Response::Decerr,
        3 | 4 | 10 | 11 | 15 => Response::Slverr,
        5 | 6 | 7 => Response::Wait,
        _ => Response::Nothing,
    }
}
