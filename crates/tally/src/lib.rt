// Totals over many decodes: "A tally is lent to each decode and brought up to date there: frames, sent bits, bits turned, rounds, words outside, stuck
// words."
//   Tally            the six totals
//   decode_tallied   the decoder with a tally that is lent
//   decode_counted   the same with a tally that is taken and returned by value
//   report           each total, and the share of turned bits in lowest terms
//   check_totals     rule 16
//
// `decode_tallied` is the thin function over a lent struct: it has no test, loop or sum of its own, and all is in `decode_counted` below it. Neither has
// a `requires`. The decoder judges rule 16 with its own rules, as the last (`decoder::decode_with_col`), so that no frame is judged twice. A total is at
// most 2^62 where a decode is accepted, and a decode adds at most 2^31 to it, so every sum fits into 64 bits.
#![tactic(auto)]

ghost use Rattle.std.specs.Prelude.{◌≡◌, ◌+◌, length};
ghost use Rattle.staircase.specs.Frame.{frame_of};
ghost use Rattle.staircase.specs.Tally.{decode_with, total_rule, full_rule, tally_call};
ghost use Rattle.staircase.specs.Report.{report_call};
ghost use Rattle.answers.specs.Answers.{verdict_of, corrected_of};
ghost use Rattle.tally.specs.Answers.{totals_of, report_of, brought_up, SumsFit};

use answers::{Counts, Refusal};

// "frames, sent bits, bits turned, rounds, words outside, stuck words"
#[derive(Clone, Copy, Debug, PartialEq, Eq)]
pub struct Tally {
    pub frames: u64,
    pub bits: u64,
    pub turned: u64,
    pub rounds: u64,
    pub outside: u64,
    pub stuck: u64,
}

// A tally after a decode, and what the decode answers.
#[derive(Clone, Copy, Debug, PartialEq, Eq)]
pub struct Tallied {
    pub tally: Tally,
    pub decoding: Result<Counts, Refusal>,
}

// "each total, and the share of turned bits as two whole numbers with no common factor"
#[derive(Clone, Copy, Debug, PartialEq, Eq)]
pub struct TallyReport {
    pub totals: Tally,
    pub top: u64,
    pub bottom: u64,
}

// Rule 16: "above 2^62".
const MOST_TOTAL: u64 = 4611686018427387904;

// Rule 16 for the total at a position. Constant work.
fn check_total(place: u64, total: u64) -> Result<(), Refusal>
    ensures { verdict_of result ≡ total_rule place total }
{
    if MOST_TOTAL < total {
        return Err(Refusal::Full(place));
    }
    Ok(())
}

// Rule 16: the first total that is above 2^62. Constant work.
pub fn check_totals(tally: Tally) -> Result<(), Refusal>
    ensures { verdict_of result ≡ full_rule (totals_of tally) }
{
    check_total(1, tally.frames)?;
    check_total(2, tally.bits)?;
    check_total(3, tally.turned)?;
    check_total(4, tally.rounds)?;
    check_total(5, tally.outside)?;
    check_total(6, tally.stuck)
}

// The tally after a decode of a frame of so many bytes of information and of redundancy: a refused one changes no total.
#[tactic(auto, using(crate::proofs::Totals::fit_of, crate::proofs::Totals::up_done, crate::proofs::Totals::up_refused))]
fn brought_up(tally: Tally, info: usize, red: usize, decoding: Result<Counts, Refusal>) -> Tally
    requires { SumsFit (totals_of tally) (info + red) decoding }
    ensures { totals_of result ≡ brought_up (totals_of tally) (info + red) decoding }
{
    match decoding {
        Ok(c) => Tally {
            frames: tally.frames + 1,
            bits: tally.bits + (info + red) as u64,
            turned: tally.turned + c.turned,
            rounds: tally.rounds + c.rounds,
            outside: tally.outside + c.outside,
            stuck: tally.stuck + c.stuck,
        },
        Err(_) => tally,
    }
}

// Decodes as `decoder::decode` does, with rule 16 behind rule 10, and returns the tally with what an accepted decode counts; a refused one leaves the
// frame and the tally as they were.
pub fn decode_counted_col(
    tally: Tally,
    m: u64,
    t: u64,
    size: u64,
    col: u64,
    blocks: u64,
    rounds: u64,
    own: &[u8],
    parity: &[u8],
    info: &mut [u8],
    red: &mut [u8],
    work: &mut [u8],
) -> Tallied
    ensures { record { corrected = corrected_of result.decoding (frame_of info.new red.new); tally = totals_of result.tally }
        ≡ tally_call (totals_of tally) (decode_with m t size col blocks rounds own.now parity.now info.old red.old
        (length work.old)) }
{
    let sent = info.len();
    let more = red.len();
    let full = check_totals(tally);
    let decoding = decoder::decode_with_col(
        full, m, t, size, col, blocks, rounds, own, parity, info, red, work,
    );
    Tallied {
        tally: brought_up(tally, sent, more, decoding),
        decoding,
    }
}

// The same where rows and columns have one code.
pub fn decode_counted(
    tally: Tally,
    m: u64,
    t: u64,
    size: u64,
    blocks: u64,
    rounds: u64,
    own: &[u8],
    parity: &[u8],
    info: &mut [u8],
    red: &mut [u8],
    work: &mut [u8],
) -> Tallied
    ensures { record { corrected = corrected_of result.decoding (frame_of info.new red.new); tally = totals_of result.tally }
        ≡ tally_call (totals_of tally) (decode_with m t size 0 blocks rounds own.now parity.now info.old red.old
        (length work.old)) }
{
    decode_counted_col(
        tally, m, t, size, 0, blocks, rounds, own, parity, info, red, work,
    )
}

// Decodes as `decode_counted` does, and brings the lent tally up to date.
pub fn decode_tallied(
    tally: &mut Tally,
    m: u64,
    t: u64,
    size: u64,
    blocks: u64,
    rounds: u64,
    own: &[u8],
    parity: &[u8],
    info: &mut [u8],
    red: &mut [u8],
    work: &mut [u8],
) -> Result<Counts, Refusal>
    ensures { record { corrected = corrected_of result (frame_of info.new red.new); tally = totals_of tally.new }
        ≡ tally_call (totals_of tally.old) (decode_with m t size 0 blocks rounds own.now parity.now info.old
        red.old (length work.old)) }
{
    let x = decode_counted(
        *tally, m, t, size, blocks, rounds, own, parity, info, red, work,
    );
    *tally = x.tally;
    x.decoding
}

// The report of a tally: of any one, also of one that no decode made. The share is 0 and 1 for no sent bits.
pub fn report(tally: Tally) -> TallyReport
    ensures { report_of result ≡ report_call (totals_of tally) }
{
    let share = tally_share::lowest_terms(tally.turned, tally.bits);
    TallyReport {
        totals: tally,
        top: share.top,
        bottom: share.bottom,
    }
}
