// What a completion does to the piece whose tag it has: a decision on numbers, which knows no bridge.
#![tactic(auto)]

ghost use Rattle.std.specs.Prelude.{◌≡◌};
ghost use Rattle.refusals.specs.Responses.{code_of};
ghost use Rattle.verdict.specs.Verdict.{is_open, is_unexpected, cause_of, useful, in_order, received, memory_verdict, config_shape, config_verdict, cause_response, cause_bit};

use common::{
    SLAVE_COMPLETER_ABORT, SLAVE_COMPLETION_TIMEOUT, SLAVE_ERROR_POISON, SLAVE_UNSUPPORTED_REQUEST,
};
use refusals::Response;
use tlp::completion::Completion;

// Why a piece failed: UR, CRS or CA, poisoned data, no completion in time.
#[derive(Clone, Copy, Debug, PartialEq, Eq)]
pub enum Cause {
    UnsupportedRequest,
    RequestRetry,
    CompleterAbort,
    Poison,
    Timeout,
}

impl Cause {
    // Of a failing status: CRS, CA, and all others as UR.
    pub fn of_status(status: u32) -> Cause
        ensures { result ≡ cause_of status }
    {
        match status {
            2 => Cause::RequestRetry,
            4 => Cause::CompleterAbort,
            _ => Cause::UnsupportedRequest,
        }
    }

    // What a read that fails so reports.
    pub fn response(self) -> Response
        ensures { code_of result ≡ cause_response self }
    {
        match self {
            Cause::UnsupportedRequest => Response::Decerr,
            Cause::RequestRetry | Cause::CompleterAbort | Cause::Poison | Cause::Timeout =>
                Response::Slverr,
        }
    }

    // CRS fails no memory read.
    pub fn decode_bit(self) -> u32
        ensures { result ≡ cause_bit self }
    {
        match self {
            Cause::UnsupportedRequest | Cause::RequestRetry => SLAVE_UNSUPPORTED_REQUEST,
            Cause::CompleterAbort => SLAVE_COMPLETER_ABORT,
            Cause::Poison => SLAVE_ERROR_POISON,
            Cause::Timeout => SLAVE_COMPLETION_TIMEOUT,
        }
    }
}

// What a completion does to the piece whose tag it has. The numbers are useful bytes.
#[derive(Clone, Copy, Debug, PartialEq, Eq)]
pub enum Verdict {
    Unexpected,
    Good(u32),
    Poisoned(u32),
    Failed(Cause),
}

impl Verdict {
    pub fn is_unexpected(self) -> bool
        ensures { result ≡ is_unexpected self }
    {
        matches!(self, Verdict::Unexpected)
    }
}

// A tag is open while bytes are missing, which lie in a slot's 4,096.
pub fn is_open(missing: u32, place: u32) -> bool
    ensures { result ≡ is_open missing place }
{
    missing != 0 && u64::from(place) + u64::from(missing) <= 4096
}

// The smaller of 4 x length - lower mod 4 and the missing count.
pub fn useful(c: Completion, missing: u32) -> u32
    ensures { result ≡ useful c missing }
{
    let come = (4 * u64::from(c.length)).saturating_sub(u64::from(c.lower % 4));
    come.min(u64::from(missing)) as u32
}

// A success that follows on what has come so far.
fn in_order(c: Completion, missing: u32, next: u64) -> bool
    ensures { result ≡ in_order c missing next }
{
    c.payload
        && c.count == missing
        && u64::from(c.lower) == next % 128
        && 4 * u64::from(c.length) < u64::from(c.lower % 4) + u64::from(missing) + 4
}

fn received(c: Completion, n: u32) -> Verdict
    ensures { result ≡ received c n }
{
    if c.poisoned {
        return Verdict::Poisoned(n);
    }
    Verdict::Good(n)
}

// For a memory read's piece with so many bytes missing, the next of them at an address.
#[tactic(auto, unfolding(crate::specs::Verdict::memory_verdict))]
pub fn memory_verdict(c: Completion, missing: u32, next: u64) -> Verdict
    ensures { result ≡ memory_verdict c missing next }
{
    match c.status {
        0 if in_order(c, missing, next) => received(c, useful(c, missing)),
        0 | 2 => Verdict::Unexpected,
        status => Verdict::Failed(Cause::of_status(status)),
    }
}

fn config_shape(c: Completion, write: bool) -> bool
    ensures { result ≡ config_shape c write }
{
    (!write && c.payload && c.length == 1 || write && !c.payload) && c.count == 4 && c.lower == 0
}

// For the configuration access.
#[tactic(auto, unfolding(crate::specs::Verdict::config_verdict))]
pub fn config_verdict(c: Completion, write: bool) -> Verdict
    ensures { result ≡ config_verdict c write }
{
    match c.status {
        0 if config_shape(c, write) => received(c, 4),
        0 => Verdict::Unexpected,
        status => Verdict::Failed(Cause::of_status(status)),
    }
}
