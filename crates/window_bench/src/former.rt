// The choice of a window as it was before request A3: each turn of the walk tests the count, and `shift_of`
// takes base and target by an index.
// Kept: it is what the present choice is timed against, so but for its result, an Option, and its casts it stays as it was.
ghost use Rattle.std.specs.Prelude.{◌≡◌, ◌≤◌, min, not, ◌==◌, slice_index};
ghost use Rattle.address.specs.Windows.{window_of, Placed, found_number};
ghost use Rattle.packets.specs.Packets.{index_of};

use address::{AxiAddress, Windows};
use packets::Shift;

fn six_at_most(n: u32) -> usize
    ensures { (result ≡ min n 6) × (result ≤ 6) }
{
    if n < 6 { n as usize } else { 6 }
}

pub fn window_of(count: u32, base: &[u64; 6], size: &[u64; 6], a: AxiAddress) -> Option<u32>
    ensures { (result ≡ window_of count base.now size.now a) × Placed result }
{
    let n = six_at_most(count);
    let mut i = 0;
    while i < n {
        if address::in_window(base[i], size[i], a) {
            return Some(i as u32);
        }
        i += 1;
    }
    None
}

fn find_window(w: Windows, a: AxiAddress) -> Option<u32>
    ensures { (result ≡ window_of w.count w.base w.size a) × Placed result }
{
    let base = w.base;
    let size = w.size;
    window_of(w.count, &base, &size, a)
}

pub fn no_window(w: Windows, a: AxiAddress) -> bool
    ensures { result ≡ not (found_number (window_of w.count w.base w.size a) == 0) }
{
    let f = find_window(w, a);
    match f {
        Some(_) => false,
        None => true,
    }
}

pub fn shift_of(w: Windows, a: AxiAddress) -> Shift
    ensures { (result.base ≡ slice_index w.base (index_of (window_of w.count w.base w.size a))) × (result.target ≡ slice_index w.target (index_of (window_of w.count w.base w.size a))) }
{
    let base = w.base;
    let target = w.target;
    let f = find_window(w, a);
    match f {
        Some(i) => {
            let k = i as usize;
            Shift {
                base: base[k],
                target: target[k],
            }
        }
        None => Shift {
            base: base[0],
            target: target[0],
        },
    }
}
