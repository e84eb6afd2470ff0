// Bytes that go to the store.
ghost use Rattle.std.specs.Prelude.{◌≡◌, ◌+◌, ◌≤◌, length};
ghost use Rattle.std.proofs.Math.Seq.{paste};
ghost use Rattle.machine.specs.Stores.{useful_bytes};

use common::copy_at;

// Useful bytes go to their place in the store.
pub fn store_at(store: &mut [u8], at: usize, payload: &[u8], skip: usize, n: usize)
    requires { (at + n ≤ length store.old) × (skip + n ≤ length payload.now) }
    ensures { store.new ≡ paste store.old at (useful_bytes skip n payload.now) n }
{
    copy_at(store, at, &payload[skip..], n);
}
