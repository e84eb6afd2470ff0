// The bridge that a header asks for.
use address::Windows;
use bridge::{Answered, Bridge};
use std::array;
use traffic_file::header::{Header, WINDOW};
use traffic_text::input::{long_at, word_at};
use window_list::{Others, Window, bridge_from_first};

// The window whose three numbers begin at a place; zeros past every header.
fn window_in(h: &[u8], at: usize) -> Window {
    let numbers = h.get(at..).unwrap_or(&[]);
    Window {
        base: long_at(numbers, 0),
        size: long_at(numbers, 8),
        target: long_at(numbers, 16),
    }
}

fn others_in(h: &[u8]) -> Others {
    Others {
        bits: word_at(h, 156),
        reads: word_at(h, 160),
        writes: word_at(h, 164),
        limit: word_at(h, 168),
        requester: word_at(h, 172),
    }
}

// From plain arrays, or from a list of the header's windows and one more.
fn made(h: Header) -> Answered {
    let six: [Window; 6] = array::from_fn(|k| window_in(h.bytes, 12 + k * WINDOW));
    let count = word_at(h.bytes, 8);
    let others = others_in(h.bytes);
    if h.is_list() {
        let [a, b, c, d, e, f] = six;
        let seven = [a, b, c, d, e, f, window_in(h.more, 0)];
        return bridge_from_first(count as usize, seven, others);
    }
    let windows = Windows {
        count,
        base: six.map(|w| w.base),
        size: six.map(|w| w.size),
        target: six.map(|w| w.target),
    };
    Bridge::new(others.with(windows))
}

// The bridge with its first tick value and its first session value, and the answer of making it. Where the version has no
// first session value, zeros stand in its place.
pub fn first_bridge(h: Header) -> Answered {
    let mut r = made(h);
    r.bridge.state.core.ticks = word_at(h.bytes, 176);
    r.bridge.state.core.session = word_at(h.more, WINDOW);
    r
}
