// Totals over many decodes, and their report, for a host in C, which lends a tally as a slice of six numbers: frames, sent bits, bits turned, rounds,
// words outside, stuck words.
//   bauchleton_decode_tallied   the decoder with a tally
//   bauchleton_report           each total, and the share of turned bits in lowest terms
//
// A tally of another length is refused by rule 6 at place 9, behind the places of the decoder's own slices and of its report.
ghost use Rattle.std.specs.Prelude.{◌≡◌, [], ◌∷◌, length};
ghost use Rattle.staircase.specs.Frame.{Frame, frame_of};
ghost use Rattle.staircase.specs.Tally.{decode_with, totals};
ghost use Rattle.answers.specs.Answers.{corrected_of, refused_frame};
ghost use Rattle.tally.specs.Answers.{totals_of};
ghost use Rattle.rules_verdict.specs.Number.{number, told};
ghost use Rattle.bauchleton.specs.Answers.{corrected_answer};
ghost use Rattle.bauchleton.specs.Report.{report_bytes};
ghost use Rattle.bauchleton.specs.LentTally.{tally_in, tally_length, length_first, lent_tally_call, report_answer};

use crate::reports::{lent_length, report_decoding};
use answers::{Counts, Refusal};
use rules_verdict::{Judged, tell};
use tally::{Tally, TallyReport};

// The totals of a tally, and the number of the rule on lengths, with the place of its slice there.
const TOTALS: usize = 6;

const LENGTH: u64 = 6;

const PLACE: u64 = 9;

// The totals of a slice of six.
fn tally_in(totals: &[u64]) -> Tally
    requires { length totals.now ≡ 6 }
    ensures { totals_of result ≡ tally_in totals.now }
{
    Tally {
        frames: totals[0],
        bits: totals[1],
        turned: totals[2],
        rounds: totals[3],
        outside: totals[4],
        stuck: totals[5],
    }
}

// Stores the totals into a slice of six.
fn put_totals(tally: Tally, out: &mut [u64])
    requires { length out.old ≡ 6 }
    ensures { out.new ≡ totals (totals_of tally) }
{
    out.copy_from_slice(&[
        tally.frames,
        tally.bits,
        tally.turned,
        tally.rounds,
        tally.outside,
        tally.stuck,
    ]);
}

// What a decode answers whose tally has another length, from what it answers with that refusal as its last: a rule after 6 comes too late.
fn length_first(a: Result<Counts, Refusal>) -> Result<Counts, Refusal>
    ensures { (f : Frame) → corrected_of result f ≡ refused_frame (length_first (corrected_of a f).verdict) f }
{
    let Err(r) = a else {
        return Err(Refusal::Length(PLACE));
    };
    if LENGTH < Judged::from(r).rule {
        return Err(Refusal::Length(PLACE));
    }
    a
}

// Corrects a frame in place, brings the lent tally up to date, and reports as the decoder does.
#[unsafe(no_mangle)]
pub extern "C" fn bauchleton_decode_tallied(
    m: u64,
    t: u64,
    size: u64,
    blocks: u64,
    rounds: u64,
    own: &[u8],
    parity: &[u8],
    info: &mut [u8],
    red: &mut [u8],
    work: &mut [u8],
    tally: &mut [u64],
    report: &mut [u8],
) -> u64
    ensures { let d = lent_tally_call report.old tally.old (decode_with m t size 0 blocks rounds own.now parity.now
        info.old red.old (length work.old)) in
        (result ≡ number d.corrected.verdict) × (frame_of info.new red.new ≡ d.corrected.frame) × (tally.new ≡ d.tally)
        × (report.new ≡ told (report_bytes (corrected_answer d.corrected)) report.old) }
{
    let n = lent_length(work.len(), report.len());
    if tally.len() != TOTALS {
        let last = Err(Refusal::Length(PLACE));
        let a = decoder::decode_with_col(
            last,
            m,
            t,
            size,
            0,
            blocks,
            rounds,
            own,
            parity,
            info,
            red,
            &mut work[0..n],
        );
        return report_decoding(length_first(a), report);
    }
    let x = tally::decode_counted(
        tally_in(&tally[..]),
        m,
        t,
        size,
        blocks,
        rounds,
        own,
        parity,
        info,
        red,
        &mut work[0..n],
    );
    let decoding = x.decoding;
    put_totals(x.tally, tally);
    report_decoding(decoding, report)
}

// Stores the place, the six totals and the two numbers of the share into a slice of nine entries, and answers the rule's number.
fn tell_report(j: Judged, r: TallyReport, answer: &mut [u64]) -> u64
    ensures { (result ≡ j.rule) × (answer.new ≡ told (j.place ∷ r.totals.frames ∷ r.totals.bits ∷ r.totals.turned ∷ r.totals.rounds
        ∷ r.totals.outside ∷ r.totals.stuck ∷ r.top ∷ r.bottom ∷ []) answer.old) }
{
    let numbers = [
        r.totals.frames,
        r.totals.bits,
        r.totals.turned,
        r.totals.rounds,
        r.totals.outside,
        r.totals.stuck,
        r.top,
        r.bottom,
    ];
    tell(j, &numbers, answer)
}

// The report of a tally. `answer` has nine entries: the place, the six totals, and the share of turned bits in lowest terms, 0 and 1 for no sent bits.
#[unsafe(no_mangle)]
pub extern "C" fn bauchleton_report(tally: &[u64], answer: &mut [u64]) -> u64
    ensures { let v = tally_length tally.now in
        (result ≡ number v) × (answer.new ≡ told (report_answer v tally.now) answer.old) }
{
    if tally.len() != TOTALS {
        return tell(Judged::from(Refusal::Length(PLACE)), &[0; 8], answer);
    }
    tell_report(Judged::ACCEPTED, tally::report(tally_in(tally)), answer)
}
