// Writing kit text for a host in C.
//   bauchleton_kit_text_length   the length of a kit's text
//   bauchleton_write_kit         the text of a kit
ghost use Rattle.std.specs.Prelude.{◌≡◌, [], ◌∷◌};
ghost use Rattle.text.specs.KitWriter.{measure_call, write_call};
ghost use Rattle.text_kit_write.specs.Checks.{measured_of};
ghost use Rattle.rules_verdict.specs.Number.{number, place_of, told};
ghost use Rattle.bauchleton_text.specs.Answers.{length_answer};

use answers::Refusal;
use rules_verdict::{Judged, tell};

// Tells the length of a text.
fn tell_length(a: Result<u64, Refusal>, answer: &mut [u64]) -> u64
    ensures { (result ≡ number (measured_of a).verdict) × (answer.new ≡ told (length_answer (measured_of a)) answer.old) }
{
    match a {
        Ok(n) => tell(Judged::ACCEPTED, &[n], answer),
        Err(r) => tell(Judged::from(r), &[0], answer),
    }
}

// The length of a kit's text, the same for every inverse. `answer` has two entries: the place and the length.
#[unsafe(no_mangle)]
pub extern "C" fn bauchleton_kit_text_length(
    m: u64,
    t: u64,
    size: u64,
    own: &[u8],
    parity: &[u8],
    answer: &mut [u64],
) -> u64
    ensures { let c = measure_call m t size own.now parity.now in
        (result ≡ number c.verdict) × (answer.new ≡ told (length_answer c) answer.old) }
{
    let a = text_kit_write::text_length(m, t, size, own, parity);
    tell_length(a, answer)
}

// Writes the text of a kit into a buffer of its length. `answer` has one entry: the place.
#[unsafe(no_mangle)]
pub extern "C" fn bauchleton_write_kit(
    m: u64,
    t: u64,
    size: u64,
    own: &[u8],
    parity: &[u8],
    inverse: &[u8],
    text: &mut [u8],
    answer: &mut [u64],
) -> u64
    ensures { let c = write_call m t size own.now parity.now inverse.now text.old in
        (result ≡ number c.verdict) × (text.new ≡ c.text) × (answer.new ≡ told (place_of c.verdict ∷ []) answer.old) }
{
    let c = text_kit_write::write_kit(m, t, size, own, parity, inverse, text);
    tell(Judged::from(c), &[], answer)
}
