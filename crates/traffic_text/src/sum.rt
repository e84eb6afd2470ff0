// The checksum of bytes, Adler-32 (RFC 1950).
ghost use Rattle.std.specs.Prelude.{◌≡◌, ◌≤◌, length};
ghost use Rattle.traffic_text.specs.Sums.{sum_joined, checksum};

// More bytes than are ever lent: sums of so many stay small.
const MOST: usize = 65536;

fn joined(a: u64, b: u64) -> u32
    ensures { result ≡ sum_joined a b }
{
    (b % 65521 * 65536 + a % 65521) as u32
}

#[tactic(auto, using(crate::proofs::Sums::low_step, crate::proofs::Sums::high_step), unfolding(crate::specs::Sums::low_to, crate::specs::Sums::high_to, crate::specs::Sums::checksum))]
pub fn sum_of(s: &[u8]) -> u32
    ensures { length s.now ≤ 65536 → result ≡ checksum s.now }
{
    if MOST < s.len() {
        return 0;
    }
    let mut a = 1u64;
    let mut b = 0u64;
    for x in s {
        a += u64::from(*x);
        b += a;
    }
    joined(a, b)
}

// Byte i of an area is i mod m before the first event; a modulus of 0 stands for 256.
pub fn fill(s: &mut [u8], m: u8) {
    let modulus = if m == 0 { 256 } else { usize::from(m) };
    for (i, b) in s.iter_mut().enumerate() {
        *b = (i % modulus) as u8;
    }
}
