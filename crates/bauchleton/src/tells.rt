// What the answer of a call tells a host in C: the number of the rule that refuses, and the entries of the slice that is lent for the rest.
//   tell_check      a check's verdict: the kit checker and the encoder
//   tell_words      the word checker's answer
//   tell_decoding   the decoder's and the loopback's
//   tell_load       that of a call that starts from a seed
ghost use Rattle.std.specs.Prelude.{◌≡◌, [], ◌∷◌};
ghost use Rattle.staircase.specs.Frame.{Frame};
ghost use Rattle.answers.specs.Answers.{verdict_of, counted_of, corrected_of};
ghost use Rattle.generator.specs.Answers.{load_state};
ghost use Rattle.rules_verdict.specs.Number.{number, place_of, told};
ghost use Rattle.bauchleton.specs.Answers.{words_answer, corrected_answer};

use answers::{Counts, Refusal};
use rules_verdict::{Judged, tell};

// Tells a check's verdict.
pub fn tell_check(c: Result<(), Refusal>, answer: &mut [u64]) -> u64
    ensures { (result ≡ number (verdict_of c)) × (answer.new ≡ told (place_of (verdict_of c) ∷ []) answer.old) }
{
    tell(Judged::from(c), &[], answer)
}

// Tells the word checker's answer.
pub fn tell_words(a: Result<u64, Refusal>, answer: &mut [u64]) -> u64
    ensures { (result ≡ number (counted_of a).verdict) × (answer.new ≡ told (words_answer (counted_of a)) answer.old) }
{
    match a {
        Ok(n) => tell(Judged::ACCEPTED, &[n], answer),
        Err(r) => tell(Judged::from(r), &[0], answer),
    }
}

// Tells the answer of a call that decodes.
pub fn tell_decoding(a: Result<Counts, Refusal>, answer: &mut [u64]) -> u64
    ensures { (f : Frame) → (result ≡ number (corrected_of a f).verdict)
        × (answer.new ≡ told (corrected_answer (corrected_of a f)) answer.old) }
{
    match a {
        Ok(c) => tell(
            Judged::ACCEPTED,
            &[c.rounds, c.turned, c.outside, c.stuck],
            answer,
        ),
        Err(r) => tell(Judged::from(r), &[0; 4], answer),
    }
}

// Tells the answer of a call that starts from a seed.
pub fn tell_load(a: Result<u32, Refusal>, answer: &mut [u64]) -> u64
    ensures { (result ≡ number (verdict_of a)) × (answer.new ≡ told (place_of (verdict_of a) ∷ load_state a ∷ []) answer.old) }
{
    match a {
        Ok(s) => tell(Judged::ACCEPTED, &[u64::from(s)], answer),
        Err(r) => tell(Judged::from(r), &[0], answer),
    }
}
