// Headers of transaction layer packets (TLPs): requests and completions as values, their readers and writers.
#![tactic(auto)]

pub mod completion;
pub mod packet;
pub mod request;

ghost use Rattle.std.specs.Prelude.{◌≡◌, ◌+◌, ◌*◌, ◌++◌, ◌≤◌, ◌<◌, length, drop, IfSome, IfNone};
ghost use Rattle.tlp.specs.Bytes.{or_full};

// A field in which the full value is written as 0.
fn or_full(full: u32, field: u32) -> u32
    ensures { result ≡ or_full full field }
{
    if field == 0 { full } else { field }
}

// The bytes that may be a header: there are at least 12.
#[derive(Clone, Copy)]
struct HeaderBytes<'a> {
    bytes: &'a [u8],
    ghost long: { 12 ≤ length bytes.now },
}

impl<'a> HeaderBytes<'a> {
    fn of(s: &'a [u8]) -> Option<HeaderBytes<'a>>
        ensures some { IfSome result (λ h. h.bytes ≡ s.entry) }
        ensures none { IfNone result (length s.now < 12) }
    {
        if s.len() < 12 {
            return None;
        }
        Some(HeaderBytes { bytes: s })
    }
}

// The number in two bytes.
fn pair(high: u8, low: u8) -> u32
    ensures { result ≡ high * 256 + low }
{
    u32::from(u16::from_be_bytes([high, low]))
}

// Puts bytes at an area's front; how many they are.
fn put(area: &mut [u8], bytes: &[u8]) -> usize
    requires { length bytes.now ≤ length area.old }
    ensures { (result ≡ length bytes.now) × (area.new ≡ bytes.now ++ drop (length bytes.now) area.old) }
{
    let n = bytes.len();
    area[..n].copy_from_slice(bytes);
    n
}
