// Crate `replay_lib` as a static library for C (tests/host/replay.c).
#![tactic(auto)]

#[unsafe(no_mangle)]
pub extern "C" fn replay_begin(desk: &mut [u8], arena: &mut [u8]) {
    replay_lib::replay_begin(desk, arena);
}

#[unsafe(no_mangle)]
pub extern "C" fn replay_run(
    script: &[u8],
    desk: &mut [u8],
    arena: &mut [u8],
    text: &mut [u8],
) -> usize {
    replay_lib::replay_run(script, desk, arena, text)
}
