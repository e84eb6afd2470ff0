// The queue in an array of cells, in a circle: no entry moves when the oldest is removed.
ghost use Rattle.std.specs.Prelude.{List, [], ◌≡◌, ℕ, eqb, leb};
ghost use Rattle.messages.specs.Queue.{depth, is_empty, is_full, push, pop};
ghost use Rattle.messages.specs.Code.Cells.{queue_of, first, cells_after};

pub const DEPTH: usize = 32;

const ENTRIES: u32 = DEPTH as u32;

// Where the oldest entry stands, mod 32, and how many there are.
// Kept: the cells are lent beside it. The registers, which hold it, go by value, and their cells would be copied with them.
#[derive(Clone, Copy, Debug, PartialEq, Eq)]
pub struct Ring {
    pub first: u32,
    pub count: u32,
}

impl Ring {
    pub fn empty() -> Ring
        ensures { (cells : List ℕ) → queue_of result cells ≡ [] }
    {
        Ring { first: 0, count: 0 }
    }

    #[tactic(auto, using(crate::proofs::Cells::empty_is))]
    pub fn is_empty(self) -> bool
        ensures queue { (cells : List ℕ) → result ≡ is_empty (queue_of self cells) }
        ensures count { result ≡ eqb self.count 0 }
    {
        self.count == 0
    }

    #[tactic(auto, using(crate::proofs::Cells::full_is))]
    pub fn is_full(self) -> bool
        ensures queue { (cells : List ℕ) → result ≡ is_full (queue_of self cells) }
        ensures count { result ≡ leb depth self.count }
    {
        DEPTH <= self.count as usize
    }

    // The oldest entry.
    #[tactic(auto, using(crate::proofs::Cells::first_none, crate::proofs::Cells::first_some))]
    pub fn oldest(self, cells: &[u32; DEPTH]) -> Option<u32>
        ensures { result ≡ first (queue_of self cells.now) }
    {
        if self.is_empty() {
            return None;
        }
        Some(cells[self.first as usize % DEPTH])
    }

    // The oldest entry is removed; the cells stay.
    #[tactic(auto, using(crate::proofs::Cells::pop_none, crate::proofs::Cells::pop_some))]
    pub fn pop(self) -> Ring
        ensures { (cells : List ℕ) → queue_of result cells ≡ pop (queue_of self cells) }
    {
        if self.is_empty() {
            return self;
        }
        Ring {
            first: self.first % ENTRIES + 1,
            count: self.count - 1,
        }
    }

    // An entry is the newest; a full queue stays as it is.
    #[tactic(auto, using(crate::proofs::Cells::push_full, crate::proofs::Cells::push_some))]
    pub fn push(self, cells: &mut [u32; DEPTH], entry: u32) -> Ring
        ensures queue { queue_of result cells.new ≡ push (queue_of self cells.old) entry }
        ensures cells { cells.new ≡ cells_after self cells.old entry }
    {
        if self.is_full() {
            return self;
        }
        cells[(self.first as usize % DEPTH + self.count as usize) % DEPTH] = entry;
        Ring {
            first: self.first,
            count: self.count + 1,
        }
    }
}
