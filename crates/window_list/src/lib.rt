// A bridge whose windows are a list of records that the caller lends: read one by one, then as with plain arrays.
#![tactic(auto)]

ghost use Rattle.std.specs.Prelude.{◌≡◌, take};
ghost use Rattle.machine.specs.State.{new_bridge};
ghost use Rattle.bridge.specs.View.{step_of};
ghost use Rattle.window_list.specs.List.{nth, count_of, windows_of, settings_with, settings_of};

use address::{Settings, Windows};
use bridge::{Answered, Bridge};

// One window: its base on the AXI side, its size in bytes, its target on the PCIe side.
#[derive(Clone, Copy, Debug, PartialEq, Eq)]
pub struct Window {
    pub base: u64,
    pub size: u64,
    pub target: u64,
}

// The settings beside the windows, as in Settings.
#[derive(Clone, Copy, Debug, PartialEq, Eq)]
pub struct Others {
    pub bits: u32,
    pub reads: u32,
    pub writes: u32,
    pub limit: u32,
    pub requester: u32,
}

impl Others {
    // The settings with these windows.
    pub fn with(self, windows: Windows) -> Settings
        ensures { result ≡ settings_with windows self }
    {
        Settings {
            windows,
            bits: self.bits,
            reads: self.reads,
            writes: self.writes,
            limit: self.limit,
            requester: self.requester,
        }
    }
}

const ZEROS: Window = Window {
    base: 0,
    size: 0,
    target: 0,
};

// Record k, or zeros where the list is over.
fn nth(list: &[Window], k: usize) -> Window
    ensures { result ≡ nth list.now k }
{
    list.get(k).copied().unwrap_or(ZEROS)
}

// How many windows n records are; 7, which is refused, stands for all numbers above 6.
fn count_of(n: usize) -> u32
    ensures { result ≡ count_of n }
{
    n.min(7) as u32
}

// The first n of six records as plain arrays.
fn windows_of(n: usize, six: [Window; 6]) -> Windows
    ensures { result ≡ windows_of n six }
{
    Windows {
        count: count_of(n),
        base: six.map(|w| w.base),
        size: six.map(|w| w.size),
        target: six.map(|w| w.target),
    }
}

// The bridge with the first n of six records, by value.
pub fn bridge_from_six(n: usize, six: [Window; 6], others: Others) -> Answered
    ensures { step_of result ≡ new_bridge (settings_with (windows_of n six) others) }
{
    Bridge::new(others.with(windows_of(n, six)))
}

// The bridge with the windows of a list; for none, or more than six, that of the worked examples, and 1.
pub fn bridge_from_list(list: &[Window], others: Others) -> Answered
    ensures { step_of result ≡ new_bridge (settings_of list.now others) }
{
    let six = std::array::from_fn(|k| nth(list, k));
    bridge_from_six(list.len(), six, others)
}

// The bridge with the first n of seven records, all seven where n is larger: the list is lent here, so that callers lend none.
pub fn bridge_from_first(n: usize, seven: [Window; 7], others: Others) -> Answered
    ensures { step_of result ≡ new_bridge (settings_of (take n seven) others) }
{
    bridge_from_list(&seven[..n.min(7)], others)
}
