// The function of replay_bench, exported for C.
#![tactic(auto)]

#[unsafe(no_mangle)]
pub extern "C" fn replay_bench_play(
    input: &[u8],
    store: &mut [u8],
    area: &mut [u8],
    held: &mut [u8],
    rows: &mut [u64],
    allowed: usize,
) -> u64 {
    replay_bench::replay_bench_play(input, store, area, held, rows, allowed)
}
