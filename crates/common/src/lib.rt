// Small steps on bytes that the layers share, and the decode bits.
#![tactic(auto)]

ghost use Rattle.std.specs.Prelude.{◌≡◌, ◌+◌, ◌^◌, ◌≤◌, ◌<◌, length, replicate};
ghost use Rattle.std.proofs.Math.Seq.{paste};

// n zeros, put into dst from at on.
pub fn zero_at(dst: &mut [u8], at: usize, n: usize)
    requires { at + n ≤ length dst.old }
    ensures { dst.new ≡ paste dst.old at (replicate n 0) n }
{
    let end = at + n;
    dst[at..end].fill(0);
}

// The first n bytes of src, put into dst from at on.
// Kept: a loop; by `copy_from_slice` an archive for C wants `memmove` from outside.
pub fn copy_at(dst: &mut [u8], at: usize, src: &[u8], n: usize)
    requires { (at + n ≤ length dst.old) × (n ≤ length src.now) }
    ensures { dst.new ≡ paste dst.old at src.now n }
{
    for i in 0..n {
        dst[at + i] = src[i];
    }
}

// The decode bits that the code names, as PG194 does.
pub const LINK_DOWN_BIT: u32 = 0;

pub const CFG_TIMEOUT: u32 = 8;

pub const CORRECTABLE: u32 = 9;

pub const NON_FATAL: u32 = 10;

pub const FATAL: u32 = 11;

pub const SLAVE_UNSUPPORTED_REQUEST: u32 = 20;

pub const SLAVE_UNEXPECTED_COMPLETION: u32 = 21;

pub const SLAVE_COMPLETION_TIMEOUT: u32 = 22;

pub const SLAVE_ERROR_POISON: u32 = 23;

pub const SLAVE_COMPLETER_ABORT: u32 = 24;

pub const SLAVE_ILLEGAL_BURST: u32 = 25;
