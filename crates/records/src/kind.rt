// The kinds of records.
ghost use Rattle.std.specs.Prelude.{◌≡◌};
ghost use Rattle.records.specs.Layout.{layout_of, length_fits};
ghost use Rattle.records.specs.Code.Kinds.{kind_number, IsKind};

// The longest body: a write's or a completion's.
pub const MOST_BODY: usize = 4112;

#[derive(Clone, Copy, Debug, PartialEq, Eq)]
pub enum Kind {
    End,
    Read,
    Write,
    Config,
    Completion,
    Link,
    Tick,
    Take,
}

impl Kind {
    // The kind that has this number. Kept: an Option, since a TryFrom's error would say no more.
    pub fn of(number: u8) -> Option<Kind>
        ensures { IsKind result number }
    {
        match number {
            0 => Some(Kind::End),
            1 => Some(Kind::Read),
            2 => Some(Kind::Write),
            3 => Some(Kind::Config),
            4 => Some(Kind::Completion),
            5 => Some(Kind::Link),
            6 => Some(Kind::Tick),
            7 => Some(Kind::Take),
            _ => None,
        }
    }

    pub fn number(self) -> u8
        ensures { result ≡ kind_number self }
    {
        self as u8
    }

    // How many bytes its body has, at least and at most.
    fn lengths(self) -> (usize, usize)
        ensures { (result.0 ≡ (layout_of (kind_number self)).least) × (result.1 ≡ (layout_of (kind_number self)).most) }
    {
        match self {
            Kind::End => (4, 4),
            Kind::Read => (10, 10),
            Kind::Write => (10, MOST_BODY),
            Kind::Config => (9, 9),
            Kind::Completion => (12, MOST_BODY),
            Kind::Link | Kind::Take => (1, 1),
            Kind::Tick => (0, 0),
        }
    }

    // Whether its body may have so many bytes.
    pub fn fits(self, body: usize) -> bool
        ensures { result ≡ length_fits (layout_of (kind_number self)) body }
    {
        let (least, most) = self.lengths();
        (least..=most).contains(&body)
    }
}
