// Addresses of the two sides, the windows between them, and the rules on settings.
#![tactic(auto)]

ghost use Rattle.std.specs.Prelude.{◌≡◌, ℕ, ◌-◌, ◌<◌, ◌≤◌};
ghost use Rattle.refusals.specs.Refusals.{number_in};
ghost use Rattle.address.specs.Windows.{holds, window_of, Placed, translated};
ghost use Rattle.address.specs.Code.Entries.{entry_number};
ghost use Rattle.address.specs.Settings.{power_of_two, each, window_right, right_at, apart, apart_at, windows_right, settings_right, settings_number, example_settings};

use refusals::Refusal;

// An address on the AXI side.
#[derive(Clone, Copy, Debug, PartialEq, Eq)]
pub struct AxiAddress(pub u64);

// An address on the PCI Express side.
#[derive(Clone, Copy, Debug, PartialEq, Eq)]
pub struct PcieAddress(pub u64);

// Up to six windows; entries past the count are ignored.
// Kept: three columns beside a count, a fixed shape: a walk over a slice of window structs stands above it (window_list), and C
// lends these columns (window_bench_c).
#[derive(Clone, Copy, Debug, PartialEq, Eq)]
pub struct Windows {
    pub count: u32,
    pub base: [u64; 6],
    pub size: [u64; 6],
    pub target: [u64; 6],
}

// Bus bits n, the two limits in bytes, the time limit T in ticks, the requester ID.
#[derive(Clone, Copy, Debug, PartialEq, Eq)]
pub struct Settings {
    pub windows: Windows,
    pub bits: u32,
    pub reads: u32,
    pub writes: u32,
    pub limit: u32,
    pub requester: u32,
}

// Whether a window holds an address.
#[tactic(auto, unfolding(crate::specs::Windows::holds))]
pub fn in_window(base: u64, size: u64, a: AxiAddress) -> bool
    ensures { result ≡ holds base size a }
{
    base <= a.0 && a.0 - base < size
}

// The first of the six entries that holds an address, in use or not; 6 where none does. The loop has a constant length, so that
// the compiler unrolls it with constant indices: no turn tests the count, and a table by value is not copied.
// Kept: the number 6 and no Option, with which an access in a loop takes 2.3 ns an address in window 0 and 3.5 in all; so 1.1 and 2.8.
fn first_of_six(base: &[u64; 6], size: &[u64; 6], a: AxiAddress) -> u32
    ensures { result ≡ entry_number (window_of 6 base.now size.now a) }
{
    for i in 0..6 {
        if in_window(base[i], size[i], a) {
            return i as u32;
        }
    }
    6
}

// The first window that holds an address.
#[tactic(auto, using(crate::proofs::Counted::found_counts, crate::proofs::Counted::found_past))]
pub fn window_of(count: u32, base: &[u64; 6], size: &[u64; 6], a: AxiAddress) -> Option<u32>
    ensures { (result ≡ window_of count base.now size.now a) × Placed result }
{
    let i = first_of_six(base, size, a);
    if i < 6 && i < count { Some(i) } else { None }
}

// The PCI Express address of an AXI address in a window.
#[tactic(auto, unfolding(crate::specs::Windows::translated))]
pub fn translate(base: u64, target: u64, a: AxiAddress) -> PcieAddress
    ensures { result ≡ translated base target a }
{
    PcieAddress(target.wrapping_add(a.0.saturating_sub(base)))
}

// Whether x is a power of two, 2^low to 2^high.
fn power_of_two(low: u32, high: u32, x: u64) -> bool
    requires { (low ≤ high) × (high < 64) }
    ensures { result ≡ power_of_two low high x }
{
    (low..high + 1).any(|k| x == 1 << k)
}

// Whether one window keeps its rules.
#[tactic(auto, using(crate::proofs::Steps::power_pos), unfolding(crate::specs::Settings::window_right))]
pub fn window_right(base: u64, size: u64, target: u64) -> bool
    ensures { result ≡ window_right base size target }
{
    power_of_two(12, 40, size) && base % size == 0 && target % size == 0
}

// Whether two ranges are disjoint. Compared by differences: a window may end at 2^64.
#[tactic(auto, using(crate::proofs::Steps::leb_sub), unfolding(crate::specs::Settings::apart))]
pub fn disjoint(base: u64, size: u64, other: u64, more: u64) -> bool
    ensures { result ≡ apart base size other more }
{
    if base <= other {
        size <= other - base
    } else {
        more <= base - other
    }
}

impl Windows {
    // The first window that holds an address, as for columns that are lent.
    pub fn find_window(self, a: AxiAddress) -> Option<u32>
        ensures { (result ≡ window_of self.count self.base self.size a) × Placed result }
    {
        window_of(self.count, &self.base, &self.size, a)
    }

    fn each_right(self) -> bool
        requires { self.count ≤ 6 }
        ensures { result ≡ each self.count (right_at self.base self.size self.target) }
    {
        (0..self.count as usize).all(|i| window_right(self.base[i], self.size[i], self.target[i]))
    }

    // Whether window j is disjoint from each before it.
    fn apart_before(self, j: usize) -> bool
        requires { j < 6 }
        ensures { result ≡ each j (apart_at self.base self.size j) }
    {
        (0..j).all(|i| disjoint(self.base[i], self.size[i], self.base[j], self.size[j]))
    }

    fn all_apart(self) -> bool
        requires { self.count ≤ 6 }
        ensures { result ≡ each self.count (λ (j : ℕ). each j (apart_at self.base self.size j)) }
    {
        (0..self.count as usize).all(|j| self.apart_before(j))
    }

    // Whether the windows keep their rules.
    #[tactic(auto, using(crate::proofs::Steps::seven_windows), unfolding(crate::specs::Settings::windows_right))]
    pub fn right(self) -> bool
        ensures { result ≡ windows_right self }
    {
        1 <= self.count && self.count <= 6 && self.each_right() && self.all_apart()
    }
}

impl Settings {
    // Whether every setting keeps its rule.
    #[tactic(auto, unfolding(crate::specs::Settings::settings_right))]
    fn right(self) -> bool
        ensures { result ≡ settings_right self }
    {
        self.windows.right()
            && (1..=8).contains(&self.bits)
            && power_of_two(7, 12, u64::from(self.reads))
            && power_of_two(7, 10, u64::from(self.writes))
            && (1..=65535).contains(&self.limit)
            && self.requester <= 65535
    }

    // Refused where a setting breaks its rule.
    #[tactic(auto, unfolding(crate::specs::Settings::settings_number))]
    pub fn check(self) -> Result<(), Refusal>
        ensures { number_in result ≡ settings_number self }
    {
        if self.right() {
            Ok(())
        } else {
            Err(Refusal::Setting)
        }
    }
}

// The settings of the worked examples.
pub fn example_settings() -> Settings
    ensures { result ≡ example_settings }
{
    let windows = Windows {
        count: 1,
        base: [0x12340000, 0, 0, 0, 0, 0],
        size: [65536, 0, 0, 0, 0, 0],
        target: [0x56710000, 0, 0, 0, 0, 0],
    };
    Settings {
        windows,
        bits: 8,
        reads: 128,
        writes: 128,
        limit: 65535,
        requester: 0,
    }
}
