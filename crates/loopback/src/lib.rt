// The bench's self test: encodes a frame, turns the bits that a pattern names, and decodes what the link would deliver.
//   loopback   the three steps on the lent buffers
//
// It is the encoder's call followed by the decoder's, on the same buffers. The number of rounds is asked before anything is written, and nothing that
// the encoder accepts is refused by the decoder, so a refused call leaves the buffers as they were. Demand 3's last part holds of it
// (`loopback_restores` in proofs/Restores.antt): where the patterns leave no word with more than t wrong bits, the frame comes back.
#![tactic(auto)]

ghost use Rattle.std.specs.Prelude.{◌≡◌, cond, ◌-◌, ◌≤◌, eqb, length, get_or};
ghost use Rattle.staircase.specs.Design.{params, most-blocks};
ghost use Rattle.staircase.specs.Frame.{frame_of};
ghost use Rattle.staircase.specs.Rules.{design_rules, kept_work};
ghost use Rattle.staircase.specs.Rules.Verdict.{accepted};
ghost use Rattle.answers.specs.Answers.{corrected_of, verdict_of};
ghost use Rattle.loopback.specs.Link.{turned, number_rules, loopback_call};

use answers::{Counts, Refusal};
use design::Design;

// Byte k of a pattern, 0 past its end.
fn error_at(errors: &[u8], k: usize) -> u8
    ensures { result ≡ get_or errors.now k 0 }
{
    errors.get(k).copied().unwrap_or(0)
}

// A bit, turned unless e is 0.
fn turned_bit(e: u8, b: u8) -> u8
    ensures { result ≡ cond (eqb e 0) b (1 - b) }
{
    if e == 0 { b } else { u8::from(b == 0) }
}

// Turns the bits of the lent buffer that the pattern names.
fn turn_bits(errors: &[u8], bits: &mut [u8])
    ensures { bits.new ≡ turned errors.now bits.old }
{
    for (k, bit) in bits.iter_mut().enumerate() {
        *bit = turned_bit(error_at(errors, k), *bit);
    }
}

// Rules 1 to 5.
fn check_numbers(
    m: u64,
    t: u64,
    size: u64,
    col: u64,
    blocks: u64,
    rounds: u64,
) -> Result<(), Refusal>
    ensures { verdict_of result ≡ number_rules m t size col blocks rounds }
{
    Design::new_col(m, t, size, col)?;
    design::check_count(blocks)?;
    design::check_rounds(rounds)
}

// The working bytes of what the decoder keeps: four for each word of a frame, and one for eight bits.
fn kept_bytes(m: u64, t: u64, size: u64, col: u64, blocks: u64) -> usize
    requires { (design_rules m t size col ≡ accepted) × (blocks ≤ most-blocks) }
    ensures { (result ≡ kept_work (params m t size col) blocks) × (result ≤ 1100000000) }
{
    let d = Design::new_col(m, t, size, col).unwrap();
    rules::kept_work(d, blocks)
}

// Encodes the lent information, turns the bits of the frame that the two patterns name, and decodes it in at most `rounds` rounds, 0 standing for
// 12. Byte k of a pattern that is not 0 turns bit k of its buffer; a pattern may have any length. The answer is the decoder's: its counts, or the
// first of rules 1 to 10 that refuses; a refused call leaves both buffers as they were. The working bytes are as many as the inverse's, and four for each
// word and one for eight bits of the frame: the encoder is lent all but these. The work is that of the two calls.
pub fn loopback_col(
    m: u64,
    t: u64,
    size: u64,
    col: u64,
    blocks: u64,
    rounds: u64,
    own: &[u8],
    parity: &[u8],
    inverse: &[u8],
    info_errors: &[u8],
    red_errors: &[u8],
    info: &mut [u8],
    red: &mut [u8],
    work: &mut [u8],
) -> Result<Counts, Refusal>
    ensures { corrected_of result (frame_of info.new red.new)
        ≡ loopback_call m t size col blocks rounds own.now parity.now inverse.now info_errors.now
        red_errors.now info.old red.old (length work.old) }
{
    check_numbers(m, t, size, col, blocks, rounds)?;
    let kept = kept_bytes(m, t, size, col, blocks);
    let front = work.len().saturating_sub(kept);
    encoder::encode_col(
        m,
        t,
        size,
        col,
        blocks,
        own,
        parity,
        inverse,
        &info[..],
        red,
        &mut work[0..front],
    )?;
    turn_bits(info_errors, info);
    turn_bits(red_errors, red);
    let n = own.len() / 2 + kept;
    decoder::decode_col(
        m,
        t,
        size,
        col,
        blocks,
        rounds,
        own,
        parity,
        info,
        red,
        &mut work[0..n],
    )
}

// The same where rows and columns have one code.
pub fn loopback(
    m: u64,
    t: u64,
    size: u64,
    blocks: u64,
    rounds: u64,
    own: &[u8],
    parity: &[u8],
    inverse: &[u8],
    info_errors: &[u8],
    red_errors: &[u8],
    info: &mut [u8],
    red: &mut [u8],
    work: &mut [u8],
) -> Result<Counts, Refusal>
    ensures { corrected_of result (frame_of info.new red.new)
        ≡ loopback_call m t size 0 blocks rounds own.now parity.now inverse.now info_errors.now
        red_errors.now info.old red.old (length work.old) }
{
    loopback_col(
        m,
        t,
        size,
        0,
        blocks,
        rounds,
        own,
        parity,
        inverse,
        info_errors,
        red_errors,
        info,
        red,
        work,
    )
}
