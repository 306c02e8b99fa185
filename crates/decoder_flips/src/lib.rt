// Flips the bits of a word in the buffers that hold a frame, and tells what correcting words has come to. It knows nothing of which words a frame has.
//   BitSite, Spots           where a bit stands, and where at most three bits of a word stand
//   all_sent                 whether all of them are in blocks that are sent
//   flip_all                 flips them, each with its mark
//   Outcome, by_count        what correcting a word comes to: clean, corrected or stuck
//   flips_of, stuck_of       the bits flipped and the stuck words that an outcome tells
//   Pass                     both, of some words
//   count_of                 how many positions are located
//
// A bit of the information is one byte and a bit of the redundancy is one byte, whichever word it is read by, so both its places change. Each flip
// toggles the bit's mark (crate `decoder_marks`), so that the marks tell at the end which bits are not the ones that were received. A frame of one
// buffer is one with an empty redundancy.
#![tactic(auto)]

ghost use Rattle.std.specs.Prelude.{◌≡◌, ◌-◌, ◌/◌, ◌≤◌, ◌<◌, length, get_or, set};
ghost use Rattle.bch.specs.Polynomial.{Bits};
ghost use Rattle.staircase.specs.Frame.{frame_of};
ghost use Rattle.staircase.specs.Decoder.{all_sent, flip_all};
ghost use Rattle.staircase.specs.Outcomes.{corrected_bits, flips_of, stuck_of};
ghost use Rattle.decoder_locator.specs.Located.{positions_of};
ghost use Rattle.decoder_marks.specs.Marks.{Toggled, MarksKept};
ghost use Rattle.decoder_flips.specs.Sites.{sites_of, Inside, listed, AllInside, Flippable};
ghost use Rattle.decoder_flips.specs.Told.{outcome_of};

use decoder_locator::Located;

// Where a bit of a word stands: in a block that is not sent, in a byte of the information or in a byte of the redundancy. `Absent` is no bit.
#[derive(Clone, Copy)]
pub enum BitSite {
    Absent,
    Unsent,
    Info(usize),
    Red(usize),
}

// Where at most three bits of a word stand, and how many there are.
#[derive(Clone, Copy)]
pub struct Spots {
    pub count: usize,
    pub x: BitSite,
    pub y: BitSite,
    pub z: BitSite,
}

// What correcting a word comes to: it was in the code, so many bits of it were flipped, or it has no correction and stays outside the code.
#[derive(Clone, Copy)]
pub enum Outcome {
    Clean,
    Corrected(usize),
    Stuck,
}

// What correcting some words has done: bits flipped, and words that were stuck.
#[derive(Clone, Copy)]
pub struct Pass {
    pub flips: usize,
    pub stuck: usize,
}

// Whether a bit is in a block that is sent.
#[tactic(auto, unfolding(crate::specs::Sites::sites_of))]
fn is_sent(at: BitSite) -> bool
    ensures { result ≡ all_sent (sites_of at) }
{
    match at {
        BitSite::Absent => true,
        BitSite::Unsent => false,
        BitSite::Info(_) => true,
        BitSite::Red(_) => true,
    }
}

// Whether all of the bits are.
#[tactic(auto, using(crate::proofs::Flips::listed_sent))]
pub fn all_sent(s: Spots) -> bool
    ensures { result ≡ all_sent (listed s) }
{
    is_sent(s.x) && is_sent(s.y) && is_sent(s.z)
}

// Flips bit k of a lent buffer and toggles mark `at`.
fn flip_bit(bits: &mut [u8], k: usize, marks: &mut [u8], at: usize)
    requires { (k < length bits.old) × Bits bits.old × (at / 8 < length marks.old) }
    ensures { (bits.new ≡ set bits.old k (1 - get_or bits.old k 0))
        × Toggled marks.old marks.new at }
{
    bits[k] = 1 - bits[k];
    decoder_marks::toggle(marks, at);
}

// Flips a bit of the lent buffers with its mark: the marks of the information come first, those of the redundancy behind them.
fn flip_at(info: &mut [u8], red: &mut [u8], marks: &mut [u8], at: BitSite)
    requires { Inside at (length info.old) (length red.old) × Flippable info.old red.old marks.old }
    ensures { (frame_of info.new red.new ≡ flip_all (sites_of at) (frame_of info.old red.old))
        × (length marks.new ≡ length marks.old)
        × MarksKept (frame_of info.old red.old) marks.old
        (frame_of info.new red.new) marks.new }
{
    match at {
        BitSite::Absent => {}
        BitSite::Unsent => {}
        BitSite::Info(k) => flip_bit(info, k, marks, k),
        BitSite::Red(k) => {
            let n = info.len();
            flip_bit(red, k, marks, n + k);
        }
    }
}

// Flips all of the bits.
pub fn flip_all(info: &mut [u8], red: &mut [u8], marks: &mut [u8], s: Spots)
    requires { AllInside s (length info.old) (length red.old) × Flippable info.old red.old marks.old }
    ensures { (frame_of info.new red.new ≡ flip_all (listed s) (frame_of info.old red.old))
        × (length marks.new ≡ length marks.old)
        × MarksKept (frame_of info.old red.old) marks.old
        (frame_of info.new red.new) marks.new }
{
    flip_at(info, red, marks, s.z);
    flip_at(info, red, marks, s.y);
    flip_at(info, red, marks, s.x);
}

// How many positions there are.
#[tactic(auto, unfolding(decoder_locator::specs::Located::positions_of))]
pub fn count_of(found: Located) -> usize
    ensures { (result ≡ length (positions_of found)) × (result ≤ 3) }
{
    match found {
        Located::Nowhere => 0,
        Located::One(_) => 1,
        Located::Two(_, _) => 2,
        Located::Three(_, _, _) => 3,
    }
}

// What a word that is outside the code comes to, by the number of bits that were flipped.
pub fn by_count(count: usize) -> Outcome
    ensures { outcome_of result ≡ corrected_bits count }
{
    match count {
        0 => Outcome::Stuck,
        _ => Outcome::Corrected(count),
    }
}

// The bits that were flipped.
pub fn flips_of(told: Outcome) -> usize
    ensures { result ≡ flips_of (outcome_of told) }
{
    match told {
        Outcome::Clean => 0,
        Outcome::Corrected(n) => n,
        Outcome::Stuck => 0,
    }
}

// 1 for a word that is stuck.
pub fn stuck_of(told: Outcome) -> usize
    ensures { (result ≡ stuck_of (outcome_of told)) × (result ≤ 1) }
{
    match told {
        Outcome::Clean => 0,
        Outcome::Corrected(_) => 0,
        Outcome::Stuck => 1,
    }
}
