// Records: how long their parts are, and which fields are wrong.
ghost use Rattle.std.specs.Prelude.{◌≡◌, MatchResult};
ghost use Rattle.traffic_file.specs.Kinds.{number_of, IsNoKind};
ghost use Rattle.traffic_file.specs.Records.{fixed_size, variable_size, ticks_of, lends_area, lends_store, is_header, lent_wrong, rest_wrong, is_wrong};

use std::fmt;
use traffic_text::input::{byte_at, word_at};

// The most bytes of fixed fields.
pub const FIELDS: usize = 54;

// The largest area, and the most variable bytes.
pub const AREA: usize = 8192;

pub const STORE: usize = 40960;

// The most ticks that a file may ask for, which bounds the time to play it.
pub const TICKS: u64 = 67108864;

#[derive(Clone, Copy, Debug, PartialEq, Eq)]
pub enum Kind {
    Read,
    Write,
    Config,
    Completion,
    Tick,
    Link,
    Look,
    Release,
    RequestWriter,
    RequestReader,
    CompletionWriter,
    CompletionReader,
    Message,
    End,
}

// What a kind byte is that no kind has.
#[derive(Clone, Copy, Debug, PartialEq, Eq)]
pub struct NoKind;

// By its number; of a number that no kind has, what is said of none.
impl TryFrom<u32> for Kind {
    type Error = NoKind;

    ghost try_from_gives = { λ n r. MatchResult r (λ kind. number_of kind ≡ n) (λ _. IsNoKind n) };

    #[tactic(auto, using(crate::proofs::Others::no_kind))]
    fn try_from(n: u32) -> Result<Kind, NoKind> {
        Kind::of(n)
    }
}

// By the kind byte.
impl TryFrom<u8> for Kind {
    type Error = NoKind;

    ghost try_from_gives = { λ n r. MatchResult r (λ kind. number_of kind ≡ n) (λ _. IsNoKind n) };

    fn try_from(n: u8) -> Result<Kind, NoKind> {
        Kind::try_from(u32::from(n))
    }
}

// The name in the log.
impl fmt::Display for Kind {
    fn fmt<W: fmt::Write>(&self, f: &mut fmt::Formatter<W>) -> fmt::Result {
        f.write_str(match self {
            Kind::Read => "read",
            Kind::Write => "write",
            Kind::Config => "config",
            Kind::Completion => "completion",
            Kind::Tick => "tick",
            Kind::Link => "link",
            Kind::Look => "look",
            Kind::Release => "release",
            Kind::RequestWriter => "request-writer",
            Kind::RequestReader => "request-reader",
            Kind::CompletionWriter => "completion-writer",
            Kind::CompletionReader => "completion-reader",
            Kind::Message => "message",
            Kind::End => "end",
        })
    }
}

impl Kind {
    #[tactic(auto, unfolding(crate::specs::Records::fixed_size))]
    fn of(n: u32) -> Result<Kind, NoKind>
        ensures { MatchResult result (λ kind. number_of kind ≡ n) (λ _. fixed_size n ≡ 0) }
    {
        match n {
            1 => Ok(Kind::Read),
            2 => Ok(Kind::Write),
            3 => Ok(Kind::Config),
            4 => Ok(Kind::Completion),
            5 => Ok(Kind::Tick),
            6 => Ok(Kind::Link),
            7 => Ok(Kind::Look),
            8 => Ok(Kind::Release),
            9 => Ok(Kind::RequestWriter),
            10 => Ok(Kind::RequestReader),
            11 => Ok(Kind::CompletionWriter),
            12 => Ok(Kind::CompletionReader),
            13 => Ok(Kind::Message),
            255 => Ok(Kind::End),
            _ => Err(NoKind),
        }
    }

    // The bytes of the fixed fields after the kind byte.
    #[tactic(auto, unfolding(crate::specs::Records::fixed_size))]
    pub fn fixed_size(self) -> usize
        ensures { result ≡ fixed_size (number_of self) }
    {
        match self {
            Kind::Read => 24,
            Kind::Write => 28,
            Kind::Config => 21,
            Kind::Completion => 8,
            Kind::Tick => 8,
            Kind::Link => 5,
            Kind::Look => 8,
            Kind::Release => 8,
            Kind::RequestWriter => 54,
            Kind::RequestReader => 4,
            Kind::CompletionWriter => 34,
            Kind::CompletionReader => 4,
            Kind::Message => 4,
            Kind::End => 4,
        }
    }

    #[tactic(auto, unfolding(crate::specs::Records::lends_area))]
    pub fn lends_area(self) -> bool
        ensures { result ≡ lends_area (number_of self) }
    {
        matches!(
            self,
            Kind::Read | Kind::Write | Kind::Config | Kind::RequestWriter | Kind::CompletionWriter
        )
    }

    fn lends_store(self) -> bool
        ensures { result ≡ lends_store (number_of self) }
    {
        matches!(
            self,
            Kind::Completion | Kind::Tick | Kind::Link | Kind::Look | Kind::Release
        )
    }

    // Whether a header writer or reader plays it, without the bridge.
    pub fn is_header(self) -> bool
        ensures { result ≡ is_header (number_of self) }
    {
        matches!(
            self,
            Kind::RequestWriter
                | Kind::RequestReader
                | Kind::CompletionWriter
                | Kind::CompletionReader
        )
    }
}

// A record; no variable bytes until they are read.
#[derive(Clone, Copy)]
pub struct Record<'a> {
    pub kind: Kind,
    pub fields: &'a [u8],
    pub bytes: &'a [u8],
}

impl Record<'_> {
    // How many variable bytes follow the fixed fields.
    #[tactic(auto, unfolding(crate::specs::Records::variable_size))]
    pub fn variable_size(self) -> usize
        ensures { result ≡ variable_size (number_of self.entry.kind) self.entry.fields.now }
    {
        match self.kind {
            Kind::Write => word_at(self.fields, 24) as usize,
            Kind::Completion => word_at(self.fields, 4) as usize,
            Kind::RequestReader | Kind::CompletionReader | Kind::Message => {
                word_at(self.fields, 0) as usize
            }
            _ => 0,
        }
    }

    // The ticks that a record asks for.
    pub fn ticks(self) -> u32
        ensures { result ≡ ticks_of (number_of self.entry.kind) self.entry.fields.now }
    {
        if self.kind == Kind::Tick {
            return word_at(self.fields, 4);
        }
        0
    }

    // The length of what is lent, at most `most`.
    #[tactic(auto, unfolding(crate::specs::Records::lent_wrong))]
    fn lent_wrong(self, most: usize) -> bool
        ensures { result ≡ lent_wrong (number_of self.entry.kind) self.entry.fields.now most }
    {
        let n = word_at(self.fields, 0) as usize;
        if self.kind.lends_area() {
            return AREA < n;
        }
        self.kind.lends_store() && most < n
    }

    // Flags are 0 or 1, targets at most 2, and a tick is repeated 1 to 131,072 times.
    #[tactic(auto, unfolding(crate::specs::Records::rest_wrong))]
    fn rest_wrong(self) -> bool
        ensures { result ≡ rest_wrong (number_of self.entry.kind) self.entry.fields.now }
    {
        let f = self.fields;
        match self.kind {
            Kind::Config => 1 < byte_at(f, 12),
            Kind::Tick => (word_at(f, 4) == 0) | (131072 < word_at(f, 4)),
            Kind::Link => 1 < byte_at(f, 4),
            Kind::RequestWriter => (1 < byte_at(f, 4)) | (2 < byte_at(f, 5)),
            Kind::CompletionWriter => (1 < byte_at(f, 4)) | (1 < byte_at(f, 5)),
            _ => false,
        }
    }

    #[tactic(auto, unfolding(crate::specs::Records::is_wrong))]
    pub fn is_wrong(self, most: usize) -> bool
        ensures { result ≡ is_wrong (number_of self.entry.kind) self.entry.fields.now most }
    {
        AREA < self.variable_size() || self.lent_wrong(most) || self.rest_wrong()
    }
}
