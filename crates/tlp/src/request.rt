// Request headers: memory reads and writes, configuration reads and writes of types 0 and 1.
ghost use Rattle.std.specs.Prelude.{◌≡◌, true, cond, ◌&&◌, ◌++◌, ◌%◌, ◌≤◌, length, drop, eqb, Some, None};
ghost use Rattle.tlp.specs.Bytes.{byte};
ghost use Rattle.tlp.specs.Request.{valid_enables, valid_config, valid_target, valid_request, format_type, config_bytes, target_bytes, request_bytes, write_request, area_after_request, format_of, config_in, target_in, request_in, read_request};

use crate::{HeaderBytes, or_full, pair, put};
use refusals::Refusal;

// Where a configuration request goes.
#[derive(Clone, Copy, Debug, PartialEq, Eq)]
pub struct ConfigAddress {
    pub bus: u32,
    pub device: u32,
    pub function: u32,
    // The extended register number, bits 11:8 of the offset.
    pub extended: u32,
    pub register: u32,
}

#[derive(Clone, Copy, Debug, PartialEq, Eq)]
pub enum Target {
    // A PCIe address. Below 2^32 the header has 3 words, else 4.
    Memory(u64),
    Config0(ConfigAddress),
    Config1(ConfigAddress),
}

#[derive(Clone, Copy, Debug, PartialEq, Eq)]
pub struct Request {
    pub write: bool,
    pub target: Target,
    // In words of 4 bytes.
    pub length: u32,
    // The requester ID.
    pub requester: u32,
    pub tag: u32,
    // The last byte enables.
    pub last: u32,
    // The first byte enables.
    pub first: u32,
}

impl ConfigAddress {
    // Kept: joined by `&`, as a definition's row of tests is (docs/DECISIONS.md, Flags joined without branches).
    fn is_valid(self) -> bool
        ensures { result ≡ valid_config self }
    {
        (self.bus < 256)
            & (self.device < 32)
            & (self.function < 8)
            & (self.extended < 16)
            & (self.register < 64)
    }

    fn bytes(self) -> [u8; 4]
        requires { valid_config self ≡ true }
        ensures { result ≡ config_bytes self }
    {
        [
            self.bus as u8,
            (self.device * 8 + self.function) as u8,
            self.extended as u8,
            (self.register * 4) as u8,
        ]
    }
}

impl Target {
    #[tactic(auto, unfolding(crate::specs::Request::valid_target))]
    fn is_valid(self, words: u32) -> bool
        ensures { result ≡ valid_target words self }
    {
        match self {
            Target::Memory(a) => a % 4 == 0,
            Target::Config0(p) | Target::Config1(p) => (words == 1) & p.is_valid(),
        }
    }

    // Byte 0, format and type.
    #[tactic(auto, unfolding(crate::specs::Request::format_type))]
    fn format_type(self, write: bool) -> u8
        ensures { result ≡ format_type write self }
    {
        let read = match self {
            Target::Memory(a) => if a < 4294967296 { 0x00 } else { 0x20 },
            Target::Config0(_) => 0x04,
            Target::Config1(_) => 0x05,
        };
        if write { read + 0x40 } else { read }
    }
}

impl Request {
    fn valid_enables(self) -> bool
        ensures { result ≡ valid_enables self.length self.last self.first }
    {
        (self.length == 1) & (self.last == 0)
            | (1 < self.length) & (self.last != 0) & (self.first != 0)
    }

    #[tactic(auto, unfolding(crate::specs::Request::valid_request))]
    fn is_valid(self) -> bool
        ensures { result ≡ valid_request self }
    {
        (1 <= self.length)
            & (self.length <= 1024)
            & (self.requester < 65536)
            & (self.tag < 256)
            & (self.last < 16)
            & (self.first < 16)
            & self.valid_enables()
            & self.target.is_valid(self.length)
    }

    // Bytes 0 to 7.
    #[tactic(auto, unfolding(crate::specs::Request::valid_request, crate::specs::Request::request_bytes))]
    fn head(self) -> [u8; 8]
        requires { valid_request self ≡ true }
        ensures { result ++ target_bytes self.target ≡ request_bytes self }
    {
        let length = ((self.length % 1024) as u16).to_be_bytes();
        let requester = (self.requester as u16).to_be_bytes();
        [
            self.target.format_type(self.write),
            0,
            length[0],
            length[1],
            requester[0],
            requester[1],
            self.tag as u8,
            (self.last * 16 + self.first) as u8,
        ]
    }

    // Puts what stands from byte 8 on; how many bytes that is.
    #[tactic(auto, unfolding(crate::specs::Request::valid_request, crate::specs::Request::valid_target, crate::specs::Request::target_bytes))]
    fn put_target(self, area: &mut [u8]) -> usize
        requires { (valid_request self ≡ true) × (8 ≤ length area.old) }
        ensures { (result ≡ length (target_bytes self.target)) × (area.new ≡ target_bytes self.target ++ drop (length (target_bytes self.target)) area.old) }
    {
        match self.target {
            Target::Memory(a) => {
                if a < 4294967296 {
                    put(area, &(a as u32).to_be_bytes())
                } else {
                    put(area, &a.to_be_bytes())
                }
            }
            Target::Config0(p) | Target::Config1(p) => put(area, &p.bytes()),
        }
    }
}

// Puts the header of q into the area, of at least 16 bytes; how many bytes it has.
// Kept: a function and no method, as the three other header calls, which read and write in one form: `read_request(s)`.
#[tactic(auto, unfolding(crate::specs::Bytes::write_header, crate::specs::Bytes::area_after))]
pub fn write_request(q: Request, area: &mut [u8]) -> Result<usize, Refusal>
    ensures { (result ≡ write_request q (length area.old)) × (area.new ≡ area_after_request q area.old) }
{
    if area.len() < 16 {
        return Err(Refusal::TooShort);
    }
    if !q.is_valid() {
        return Err(Refusal::Malformed);
    }
    let n = put(area, &q.head());
    Ok(n + q.put_target(&mut area[n..]))
}

impl HeaderBytes<'_> {
    fn config(self) -> Option<ConfigAddress>
        ensures { result ≡ cond (eqb (length self.entry.bytes.now) 12 && eqb (byte self.entry.bytes.now 11 % 4) 0) (Some (config_in self.entry.bytes.now)) None }
    {
        let s = self.bytes;
        if s.len() == 12 && s[11] % 4 == 0 {
            return Some(ConfigAddress {
                bus: u32::from(s[8]),
                device: u32::from(s[9] / 8),
                function: u32::from(s[9] % 8),
                extended: u32::from(s[10]),
                register: u32::from(s[11] / 4),
            });
        }
        None
    }

    #[tactic(auto, unfolding(crate::specs::Request::format_of, crate::specs::Request::target_in))]
    fn target(self) -> Option<Target>
        ensures { result ≡ target_in (format_of (byte self.entry.bytes.now 0 % 0x40)) self.entry.bytes.now }
    {
        let s = self.bytes;
        let n = s.len();
        match s[0] % 0x40 {
            0x00 if n == 12 => {
                Some(Target::Memory(u64::from(u32::from_be_bytes([s[8], s[9], s[10], s[11]]))))
            }
            0x20 if n == 16 => {
                let a = u64::from_be_bytes([s[8], s[9], s[10], s[11], s[12], s[13], s[14], s[15]]);
                if a < 4294967296 {
                    None
                } else {
                    Some(Target::Memory(a))
                }
            }
            0x04 => Some(Target::Config0(self.config()?)),
            0x05 => Some(Target::Config1(self.config()?)),
            _ => None,
        }
    }

    fn request(self, target: Target) -> Request
        ensures { result ≡ request_in self.entry.bytes.now target }
    {
        let s = self.bytes;
        Request {
            write: 0x40 <= s[0],
            target,
            length: or_full(1024, pair(s[2], s[3])),
            requester: pair(s[4], s[5]),
            tag: u32::from(s[6]),
            last: u32::from(s[7] / 16),
            first: u32::from(s[7] % 16),
        }
    }
}

// The request whose header the bytes are, all of them.
#[tactic(auto, unfolding(crate::specs::Request::read_request, crate::specs::Request::request_reserved, crate::specs::Request::target_in, crate::specs::Request::format_of))]
pub fn read_request(s: &[u8]) -> Result<Request, Refusal>
    ensures { result ≡ read_request s.now }
{
    let h = HeaderBytes::of(s).ok_or(Refusal::Malformed)?;
    if !((s[0] < 0x80) & (s[1] == 0) & (s[2] < 4)) {
        return Err(Refusal::Malformed);
    }
    let q = h.request(h.target().ok_or(Refusal::Malformed)?);
    if q.is_valid() {
        Ok(q)
    } else {
        Err(Refusal::Malformed)
    }
}
