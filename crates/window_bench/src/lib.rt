// What bench/ times: the choice of a window, by itself and as an access of the bridge makes it. Each function for bench/ is
// there with the present choice and, `_former`, with the one before request A3; window_bench_c exports these for C.
#![tactic(auto)]

mod former;

ghost use Rattle.std.specs.Prelude.{◌≡◌, ℕ, not, ◌==◌, slice_index};
ghost use Rattle.address.specs.Windows.{axi, window_of, Placed, found_number};
ghost use Rattle.address.specs.Code.Entries.{entry_number};
ghost use Rattle.packets.specs.Packets.{index_of};
ghost use Rattle.window_bench.specs.Sums.{sum_of, entry_at, table_of, reached_at};

use address::{AxiAddress, Windows};
use packets::Shift;

// A choice that is timed.
trait Choice {
    fn window_of(count: u32, base: &[u64; 6], size: &[u64; 6], a: AxiAddress) -> Option<u32>
        ensures { (result ≡ window_of count base.now size.now a) × Placed result };

    fn no_window(w: Windows, a: AxiAddress) -> bool
        ensures { result ≡ not (found_number (window_of w.count w.base w.size a) == 0) };

    fn shift_of(w: Windows, a: AxiAddress) -> Shift
        ensures { (result.base ≡ slice_index w.base (index_of (window_of w.count w.base w.size a))) × (result.target ≡ slice_index w.target (index_of (window_of w.count w.base w.size a))) };
}

struct Present;

impl Choice for Present {
    fn window_of(count: u32, base: &[u64; 6], size: &[u64; 6], a: AxiAddress) -> Option<u32> {
        address::window_of(count, base, size, a)
    }

    fn no_window(w: Windows, a: AxiAddress) -> bool {
        packets::no_window(w, a)
    }

    fn shift_of(w: Windows, a: AxiAddress) -> Shift {
        packets::shift_of(w, a)
    }
}

struct Before;

impl Choice for Before {
    fn window_of(count: u32, base: &[u64; 6], size: &[u64; 6], a: AxiAddress) -> Option<u32> {
        former::window_of(count, base, size, a)
    }

    fn no_window(w: Windows, a: AxiAddress) -> bool {
        former::no_window(w, a)
    }

    fn shift_of(w: Windows, a: AxiAddress) -> Shift {
        former::shift_of(w, a)
    }
}

// The sum of what each address gives.
#[tactic(auto, using(crate::proofs::Sums::sum_none, crate::proofs::Sums::sum_on))]
fn sum<F: Fn(u64) -> u64>(addresses: &[u64], of: F) -> u64
    requires { (a : ℕ) → F.pre of a }
    ensures { (f : ℕ → ℕ) → ((a r : ℕ) → F.post of a r → r ≡ f a) → result ≡ sum_of f addresses.now }
{
    let mut sum = 0u64;
    for a in addresses {
        sum = sum.wrapping_add(of(*a));
    }
    sum
}

// ---- the choice on lent columns: one, and the sum of many

fn chosen<C: Choice>(count: u32, base: &[u64; 6], size: &[u64; 6], a: u64) -> u64
    ensures { result ≡ entry_at count base.now size.now a }
{
    C::window_of(count, base, size, AxiAddress(a)).map_or(6, u64::from)
}

fn choices<C: Choice>(count: u32, base: &[u64; 6], size: &[u64; 6], addresses: &[u64]) -> u64
    ensures { result ≡ sum_of (entry_at count base.now size.now) addresses.now }
{
    sum(addresses, |a| chosen::<C>(count, base, size, a))
}

// ---- as an access makes it, with the table by value: whether a window holds the address, then that window's base and target

fn reached<C: Choice>(w: Windows, a: u64) -> u64
    ensures { result ≡ reached_at w a }
{
    if C::no_window(w, AxiAddress(a)) {
        return 0;
    }
    C::shift_of(w, AxiAddress(a)).translate(AxiAddress(a)).0
}

fn accesses<C: Choice>(w: Windows, addresses: &[u64]) -> u64
    ensures { result ≡ sum_of (reached_at w) addresses.now }
{
    sum(addresses, |a| reached::<C>(w, a))
}

fn table_of(count: u32, base: &[u64; 6], size: &[u64; 6], target: &[u64; 6]) -> Windows
    ensures { result ≡ table_of count base.now size.now target.now }
{
    Windows {
        count,
        base: *base,
        size: *size,
        target: *target,
    }
}

// ---- under the names that window_bench_c exports for C

pub fn window_bench_choice(count: u32, base: &[u64; 6], size: &[u64; 6], a: u64) -> u64
    ensures { result ≡ entry_at count base.now size.now a }
{
    chosen::<Present>(count, base, size, a)
}

pub fn window_bench_choice_former(count: u32, base: &[u64; 6], size: &[u64; 6], a: u64) -> u64
    ensures { result ≡ entry_at count base.now size.now a }
{
    chosen::<Before>(count, base, size, a)
}

pub fn window_bench_choices(count: u32, base: &[u64; 6], size: &[u64; 6], addresses: &[u64]) -> u64
    ensures { result ≡ sum_of (entry_at count base.now size.now) addresses.now }
{
    choices::<Present>(count, base, size, addresses)
}

pub fn window_bench_choices_former(
    count: u32,
    base: &[u64; 6],
    size: &[u64; 6],
    addresses: &[u64],
) -> u64
    ensures { result ≡ sum_of (entry_at count base.now size.now) addresses.now }
{
    choices::<Before>(count, base, size, addresses)
}

pub fn window_bench_accesses(
    count: u32,
    base: &[u64; 6],
    size: &[u64; 6],
    target: &[u64; 6],
    addresses: &[u64],
) -> u64
    ensures { result ≡ sum_of (reached_at (table_of count base.now size.now target.now)) addresses.now }
{
    accesses::<Present>(table_of(count, base, size, target), addresses)
}

pub fn window_bench_accesses_former(
    count: u32,
    base: &[u64; 6],
    size: &[u64; 6],
    target: &[u64; 6],
    addresses: &[u64],
) -> u64
    ensures { result ≡ sum_of (reached_at (table_of count base.now size.now target.now)) addresses.now }
{
    accesses::<Before>(table_of(count, base, size, target), addresses)
}
