// The functions of window_bench, exported for C.
#![tactic(auto)]

ghost use Rattle.std.specs.Prelude.{◌≡◌};
ghost use Rattle.window_bench.specs.Sums.{sum_of, entry_at, table_of, reached_at};

#[unsafe(no_mangle)]
pub extern "C" fn window_bench_choice(count: u32, base: &[u64; 6], size: &[u64; 6], a: u64) -> u64
    ensures { result ≡ entry_at count base.now size.now a }
{
    window_bench::window_bench_choice(count, base, size, a)
}

#[unsafe(no_mangle)]
pub extern "C" fn window_bench_choice_former(
    count: u32,
    base: &[u64; 6],
    size: &[u64; 6],
    a: u64,
) -> u64
    ensures { result ≡ entry_at count base.now size.now a }
{
    window_bench::window_bench_choice_former(count, base, size, a)
}

#[unsafe(no_mangle)]
pub extern "C" fn window_bench_choices(
    count: u32,
    base: &[u64; 6],
    size: &[u64; 6],
    addresses: &[u64],
) -> u64
    ensures { result ≡ sum_of (entry_at count base.now size.now) addresses.now }
{
    window_bench::window_bench_choices(count, base, size, addresses)
}

#[unsafe(no_mangle)]
pub extern "C" fn window_bench_choices_former(
    count: u32,
    base: &[u64; 6],
    size: &[u64; 6],
    addresses: &[u64],
) -> u64
    ensures { result ≡ sum_of (entry_at count base.now size.now) addresses.now }
{
    window_bench::window_bench_choices_former(count, base, size, addresses)
}

#[unsafe(no_mangle)]
pub extern "C" fn window_bench_accesses(
    count: u32,
    base: &[u64; 6],
    size: &[u64; 6],
    target: &[u64; 6],
    addresses: &[u64],
) -> u64
    ensures { result ≡ sum_of (reached_at (table_of count base.now size.now target.now)) addresses.now }
{
    window_bench::window_bench_accesses(count, base, size, target, addresses)
}

#[unsafe(no_mangle)]
pub extern "C" fn window_bench_accesses_former(
    count: u32,
    base: &[u64; 6],
    size: &[u64; 6],
    target: &[u64; 6],
    addresses: &[u64],
) -> u64
    ensures { result ≡ sum_of (reached_at (table_of count base.now size.now target.now)) addresses.now }
{
    window_bench::window_bench_accesses_former(count, base, size, target, addresses)
}
