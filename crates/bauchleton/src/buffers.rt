// Plain buffers of bits for a host in C: two compared, and the test load without a design, as for original frames.
//   bauchleton_differences          in how many places two buffers differ
//   bauchleton_load_fill_buffer     fills a buffer from a seed
//   bauchleton_load_errors_buffer   turns the bits of a buffer whose draws are below a limit
ghost use Rattle.std.specs.Prelude.{◌≡◌, [], ◌∷◌, length};
ghost use Rattle.staircase.specs.Lists.{tabulate};
ghost use Rattle.staircase.specs.Load.{state_after, load_bit};
ghost use Rattle.load.specs.Buffer.{errors_buffer};
ghost use Rattle.rules_verdict.specs.Number.{number, place_of, told};
ghost use Rattle.bauchleton.specs.Buffers.{differences_verdict, differences_answer};

use crate::tells::tell_load;
use rules_verdict::{Judged, tell};

// Counts the places in which two buffers of one length differ. `answer` has two entries: the place of a refusal and the number.
#[unsafe(no_mangle)]
pub extern "C" fn bauchleton_differences(a: &[u8], b: &[u8], answer: &mut [u64]) -> u64
    ensures { (result ≡ number (differences_verdict a.now b.now))
        × (answer.new ≡ told (differences_answer a.now b.now) answer.old) }
{
    match rules::check_length(rules::INFORMATION, b.len(), a.len()) {
        Ok(()) => tell(Judged::ACCEPTED, &[differences::differences(a, b)], answer),
        Err(r) => tell(Judged::from(r), &[0], answer),
    }
}

// Fills a buffer, a step of the generator a bit. No rule refuses. `answer` has two entries: 0 and the last state.
#[unsafe(no_mangle)]
pub extern "C" fn bauchleton_load_fill_buffer(seed: u32, bits: &mut [u8], answer: &mut [u64]) -> u64
    ensures { let n = length bits.old in
        (result ≡ 0) × (bits.new ≡ tabulate n (load_bit seed)) × (answer.new ≡ told (0 ∷ state_after seed n ∷ []) answer.old) }
{
    let last = load::fill_buffer(seed, bits);
    tell(Judged::ACCEPTED, &[u64::from(last)], answer)
}

// Turns the bits of a buffer whose draws are below `limit`. `answer` has two entries: the place and the last state.
#[unsafe(no_mangle)]
pub extern "C" fn bauchleton_load_errors_buffer(
    seed: u32,
    limit: u64,
    bits: &mut [u8],
    answer: &mut [u64],
) -> u64
    ensures { let e = errors_buffer seed limit bits.old in
        (result ≡ number e.verdict) × (bits.new ≡ e.info)
        × (answer.new ≡ told (place_of e.verdict ∷ e.state ∷ []) answer.old) }
{
    let a = load::errors_buffer(seed, limit, bits);
    tell_load(a, answer)
}
