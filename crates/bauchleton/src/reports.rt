// The 40 bytes that a host in C lends to the kit checker, to the encoders and to the decoders: five numbers of eight bytes each, low byte first. They are
// the refusal's place, rounds made, bits turned, words outside the code at the end, and stuck words of the last round made; 0 for what a call lacks.
//   put_number        stores a number into eight bytes
//   put_report, put_place   store a place and what a decode counts, or a place alone
//   lent_length       what a call lends on of its last slice
//   report_check      reports a check's verdict
//   report_decoding   reports the decoder's answer
//
// A report of another length is left as it was, and refused by rule 6 at place 8, behind the places of a call's other slices. Its host sees the number of the
// rule alone. So the call is made with nothing for a slice that is never due 0 bytes: it refuses by one of the same rules, by rule 6 at the latest, and
// writes nothing.
ghost use Rattle.std.specs.Prelude.{◌≡◌, [], ◌∷◌, ◌≤◌, length};
ghost use Rattle.staircase.specs.Frame.{Frame};
ghost use Rattle.answers.specs.Answers.{verdict_of, corrected_of};
ghost use Rattle.rules_verdict.specs.Number.{number, told};
ghost use Rattle.bauchleton.specs.Answers.{corrected_answer};
ghost use Rattle.bauchleton.specs.Report.{eight_bytes, report_bytes, check_report, lent_length};

use answers::{Counts, Refusal};
use rules_verdict::Judged;

// The bytes of a report.
const REPORT: usize = 40;

// What a call with a report of `report` bytes lends on of a slice of n bytes: all of it, or nothing where the report has another length.
pub fn lent_length(n: usize, report: usize) -> usize
    ensures { (result ≡ lent_length report n) × (result ≤ n) }
{
    if report != REPORT {
        return 0;
    }
    n
}

// Stores a number into eight bytes, low byte first.
fn put_number(part: &mut [u8], n: u64)
    requires { length part.old ≡ 8 }
    ensures { part.new ≡ eight_bytes n }
{
    part.copy_from_slice(&n.to_le_bytes());
}

// Stores a place and what a decode counts into a report.
fn put_report(place: u64, c: Counts, report: &mut [u8])
    ensures { report.new ≡ told (report_bytes (place ∷ c.rounds ∷ c.turned ∷ c.outside ∷ c.stuck ∷ [])) report.old }
{
    if report.len() != REPORT {
        return;
    }
    put_number(&mut report[0..8], place);
    put_number(&mut report[8..16], c.rounds);
    put_number(&mut report[16..24], c.turned);
    put_number(&mut report[24..32], c.outside);
    put_number(&mut report[32..40], c.stuck);
}

// Reports a place alone.
fn put_place(place: u64, report: &mut [u8])
    ensures { report.new ≡ told (report_bytes (place ∷ 0 ∷ 0 ∷ 0 ∷ 0 ∷ [])) report.old }
{
    let none = Counts {
        rounds: 0,
        turned: 0,
        outside: 0,
        stuck: 0,
    };
    put_report(place, none, report)
}

// Reports a check's verdict: its place, and no counts. Answers the number of the rule that refuses, or 0.
pub fn report_check(c: Result<(), Refusal>, report: &mut [u8]) -> u64
    ensures { (result ≡ number (verdict_of c)) × (report.new ≡ told (report_bytes (check_report (verdict_of c))) report.old) }
{
    let judged = Judged::from(c);
    put_place(judged.place, report);
    judged.rule
}

// Reports the answer of a call that decodes. Answers the number of the rule that refuses, or 0.
pub fn report_decoding(a: Result<Counts, Refusal>, report: &mut [u8]) -> u64
    ensures { (f : Frame) → (result ≡ number (corrected_of a f).verdict)
        × (report.new ≡ told (report_bytes (corrected_answer (corrected_of a f))) report.old) }
{
    match a {
        Ok(c) => {
            put_report(0, c, report);
            0
        }
        Err(r) => {
            let judged = Judged::from(r);
            put_place(judged.place, report);
            judged.rule
        }
    }
}
