// The test load for a host in C.
//   bauchleton_load_fill     fills the information of a frame from a seed
//   bauchleton_load_errors   turns the bits of a frame whose draws are below a limit
//   bauchleton_load_run      turns a run of bits of a frame
ghost use Rattle.std.specs.Prelude.{◌≡◌, [], ◌∷◌};
ghost use Rattle.staircase.specs.Frame.{frame_of};
ghost use Rattle.staircase.specs.Load.{fill_call, errors_call, run_call};
ghost use Rattle.rules_verdict.specs.Number.{number, place_of, told};

use crate::tells::{tell_check, tell_load};

// Fills the information of a frame, a step of the generator a bit. `answer` has two entries: the place and the last state.
#[unsafe(no_mangle)]
pub extern "C" fn bauchleton_load_fill(
    m: u64,
    t: u64,
    size: u64,
    blocks: u64,
    seed: u32,
    info: &mut [u8],
    answer: &mut [u64],
) -> u64
    ensures { let f = fill_call m t size 0 blocks seed info.old in
        (result ≡ number f.verdict) × (info.new ≡ f.info)
        × (answer.new ≡ told (place_of f.verdict ∷ f.state ∷ []) answer.old) }
{
    let a = load::fill(m, t, size, blocks, seed, info);
    tell_load(a, answer)
}

// Turns the bits of a frame whose draws are below `limit`. `answer` has two entries: the place and the last state.
#[unsafe(no_mangle)]
pub extern "C" fn bauchleton_load_errors(
    m: u64,
    t: u64,
    size: u64,
    blocks: u64,
    seed: u32,
    limit: u64,
    info: &mut [u8],
    red: &mut [u8],
    answer: &mut [u64],
) -> u64
    ensures { let e = errors_call m t size 0 blocks seed limit info.old red.old in
        (result ≡ number e.verdict) × (frame_of info.new red.new ≡ e.frame)
        × (answer.new ≡ told (place_of e.verdict ∷ e.state ∷ []) answer.old) }
{
    let a = load::errors(m, t, size, blocks, seed, limit, info, red);
    tell_load(a, answer)
}

// Turns `length` bits of a frame from bit `place` on, as far as there are any. `answer` has one entry: the place of a refusal.
#[unsafe(no_mangle)]
pub extern "C" fn bauchleton_load_run(
    m: u64,
    t: u64,
    size: u64,
    blocks: u64,
    place: u64,
    length: u64,
    info: &mut [u8],
    red: &mut [u8],
    answer: &mut [u64],
) -> u64
    ensures { let r = run_call m t size 0 blocks place length info.old red.old in
        (result ≡ number r.verdict) × (frame_of info.new red.new ≡ r.frame)
        × (answer.new ≡ told (place_of r.verdict ∷ []) answer.old) }
{
    let c = load::run(m, t, size, blocks, place, length, info, red);
    tell_check(c, answer)
}
