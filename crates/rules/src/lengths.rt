// Rules 4 to 6 of document 01's table, and rule 17 of document 02: numbers and lengths, which are judged without a byte being read.
//   Lengths                             of the six slices that rule 6 counts
//   check_length(place, have, due)      rule 6 for one slice
//   check_lengths(have, due)            for all six
//   kit_due, make_due, lists_due, frame_due, batch_due   the lengths that are due of a kit, of one that is made, of its lists, of a frame, of several
//   kept_work                           the working bytes of what the decoder keeps of a frame
//   decoder_due                         of the lists, and of the working bytes of the decoder
//   original_due, original_decoder_due  of an original frame
//   check_list_lengths, check_kit_lengths, check_frame_lengths   rule 6 for some of the slices
//   check_frame                         rules 4 to 6, for every kind of frame
//   check_batch                         rules 4, 17 and 6
//
// A call that lacks a slice has 0 for it, and 0 is due. What is due of a frame is told for every number of blocks, and is right where rule 4 accepts it. Each rule is judged at once, and `first` picks the first refusal.
ghost use Rattle.std.specs.Prelude.{◌≡◌, ◌≤◌};
ghost use Rattle.staircase.specs.Design.{most-blocks};
ghost use Rattle.staircase.specs.Rules.{◌then◌, count_rule, length_rule, list_lengths, kit_lengths, frame_lengths, kept_work};
ghost use Rattle.staircase.specs.Batch.{most-frames};
ghost use Rattle.design.specs.Sizes.{params_of};
ghost use Rattle.design.specs.Answers.{Allowed};
ghost use Rattle.rules.specs.Lengths.{lengths_rule, kit_due, make_due, lists_due, decoder_due, frame_due, batch_due, original_due, original_decoder_due, size_rules, batch_size_rules};
ghost use Rattle.answers.specs.Answers.{verdict_of};

use answers::Refusal;
use design::Design;

// "1 self, 2 parity, 3 inverse, 4 information, 5 redundancy, 6 working"
pub const SELF: u64 = 1;

pub const PARITY: u64 = 2;

pub const INVERSE: u64 = 3;

pub const INFORMATION: u64 = 4;

pub const REDUNDANCY: u64 = 5;

pub const WORKING: u64 = 6;

// Document 02: "rule 6 gains place 7, a text buffer whose length isn't the text's"
pub const TEXT: u64 = 7;

// Lengths of the slices of a call, in bytes.
#[derive(Clone, Copy, Debug, PartialEq, Eq)]
pub struct Lengths {
    pub own: usize,
    pub parity: usize,
    pub inverse: usize,
    pub info: usize,
    pub red: usize,
    pub work: usize,
}

// Rule 6 for the slice that the rule calls `place`, which has `have` bytes where `due` are due. Constant work.
pub fn check_length(place: u64, have: usize, due: usize) -> Result<(), Refusal>
    ensures { verdict_of result ≡ length_rule place have due }
{
    if have != due {
        return Err(Refusal::Length(place));
    }
    Ok(())
}

// Rule 6. Constant work.
pub fn check_lengths(have: Lengths, due: Lengths) -> Result<(), Refusal>
    ensures { verdict_of result ≡ lengths_rule have due }
{
    check_length(SELF, have.own, due.own)?;
    check_length(PARITY, have.parity, due.parity)?;
    check_length(INVERSE, have.inverse, due.inverse)?;
    check_length(INFORMATION, have.info, due.info)?;
    check_length(REDUNDANCY, have.red, due.red)?;
    check_length(WORKING, have.work, due.work)
}

// Of the lists and the inverse of a kit, and of working bytes as many as the inverse's.
pub fn kit_due(d: Design) -> Lengths
    ensures { result ≡ kit_due (params_of d) }
{
    let n = d.order();
    let packed = n * d.row_bytes();
    Lengths {
        own: 2 * n,
        parity: 2 * n,
        inverse: packed,
        info: 0,
        red: 0,
        work: packed,
    }
}

// Of the lists and the inverse of a kit, and of the working bytes of the maker of the inverse.
pub fn make_due(d: Design) -> Lengths
    ensures { result ≡ make_due (params_of d) }
{
    let n = d.order();
    let width = d.row_bytes();
    let packed = n * width;
    let work = (2 * n + 512) * width;
    Lengths {
        own: 2 * n,
        parity: 2 * n,
        inverse: packed,
        info: 0,
        red: 0,
        work,
    }
}

// Of the lists of a kit, and of a working byte for each entry of a list.
pub fn lists_due(d: Design) -> Lengths
    ensures { result ≡ lists_due (params_of d) }
{
    let n = d.order();
    Lengths {
        own: 2 * n,
        parity: 2 * n,
        inverse: 0,
        info: 0,
        red: 0,
        work: n,
    }
}

// Of the information and the redundancy of a frame of `blocks` blocks, beside what else is due.
pub fn frame_due(d: Design, blocks: u64, due: Lengths) -> Lengths
    ensures { blocks ≤ most-blocks → result ≡ frame_due (params_of d) blocks due }
{
    let few = blocks_allowed(blocks);
    let info = (few as usize) * d.area();
    let red = (design::group_count(few) as usize) * (2 * d.order());
    Lengths { info, red, ..due }
}

// Of the joined information and the joined redundancy of `frames` frames of `blocks` blocks, beside what else is due.
pub fn batch_due(d: Design, blocks: u64, frames: u64, due: Lengths) -> Lengths
    ensures { blocks ≤ most-blocks → frames ≤ most-frames → result ≡ batch_due (params_of d) blocks frames due }
{
    let few = blocks_allowed(blocks);
    let some = frames_allowed(frames);
    let info = (some as usize) * ((few as usize) * d.area());
    let red = (some as usize) * ((design::group_count(few) as usize) * (2 * d.order()));
    Lengths { info, red, ..due }
}

// Rule 6 for the two lists alone: what else is due is taken as it is due.
pub fn check_list_lengths(d: Design, own: &[u8], parity: &[u8]) -> Result<(), Refusal>
    ensures { verdict_of result ≡ list_lengths (params_of d) own.now parity.now }
{
    let due = kit_due(d);
    let have = Lengths {
        own: own.len(),
        parity: parity.len(),
        ..due
    };
    check_lengths(have, due)
}

// Rule 6 for the lists and the inverse of a kit.
pub fn check_kit_lengths(
    d: Design,
    own: &[u8],
    parity: &[u8],
    inverse: &[u8],
) -> Result<(), Refusal>
    ensures { verdict_of result ≡ kit_lengths (params_of d) own.now parity.now inverse.now }
{
    let due = kit_due(d);
    let have = Lengths {
        own: own.len(),
        parity: parity.len(),
        inverse: inverse.len(),
        ..due
    };
    check_lengths(have, due)
}

// Rule 6 for the information and the redundancy of a frame of `blocks` blocks.
pub fn check_frame_lengths(d: Design, blocks: u64, info: &[u8], red: &[u8]) -> Result<(), Refusal>
    requires { blocks ≤ most-blocks }
    ensures { verdict_of result ≡ frame_lengths (params_of d) blocks info.now red.now }
{
    let due = frame_due(d, blocks, lists_due(d));
    let have = Lengths {
        info: info.len(),
        red: red.len(),
        ..due
    };
    check_lengths(have, due)
}

// A number of blocks that rule 4 accepts, and 0 for one that it refuses.
fn blocks_allowed(blocks: u64) -> u64
    ensures { (result ≤ most-blocks) × (blocks ≤ most-blocks → result ≡ blocks) }
{
    if design::MOST_BLOCKS < blocks {
        return 0;
    }
    blocks
}

// The working bytes of what the decoder keeps of a frame of `blocks` blocks: four for each word, and one for eight bits.
pub fn kept_work(d: Design, blocks: u64) -> usize
    requires { Allowed d × (blocks ≤ most-blocks) }
    ensures { (result ≡ kept_work (params_of d) blocks) × (result ≤ 1100000000) }
{
    let bits = frame_due(d, blocks, lists_due(d));
    let count = design::group_count(blocks) as usize;
    8 * (count * d.size()) + (bits.info + bits.red + 7) / 8
}

// Of the lists of a kit, and of the working bytes of the decoder for a frame of `blocks` blocks, where rule 4 accepts them.
pub fn decoder_due(d: Design, blocks: u64) -> Lengths
    requires { Allowed d }
    ensures { blocks ≤ most-blocks → result ≡ decoder_due (params_of d) blocks }
{
    let n = d.order();
    let kept = kept_work(d, blocks_allowed(blocks));
    Lengths {
        own: 2 * n,
        parity: 2 * n,
        inverse: 0,
        info: 0,
        red: 0,
        work: n + kept,
    }
}

// Of the buffer of an original frame of `blocks` blocks, and no working bytes.
pub fn original_due(d: Design, blocks: u64) -> Lengths
    ensures { blocks ≤ most-blocks → result ≡ original_due (params_of d) blocks }
{
    let info = (blocks_allowed(blocks) as usize) * d.area();
    Lengths {
        own: 0,
        parity: 0,
        inverse: 0,
        info,
        red: 0,
        work: 0,
    }
}

// Of the buffer of an original frame of `blocks` blocks, and of the working bytes of its decoder: four for each row, and a mark for each bit, eight in a byte.
pub fn original_decoder_due(d: Design, blocks: u64) -> Lengths
    ensures { blocks ≤ most-blocks → result ≡ original_decoder_due (params_of d) blocks }
{
    let few = blocks_allowed(blocks) as usize;
    let info = few * d.area();
    let work = 4 * (few * d.size()) + (info + 7) / 8;
    Lengths {
        own: 0,
        parity: 0,
        inverse: 0,
        info,
        red: 0,
        work,
    }
}

// Rule 4, a check that stands between, and rule 6. Constant work.
fn check_sizes(
    blocks: u64,
    between: Result<(), Refusal>,
    have: Lengths,
    due: Lengths,
) -> Result<(), Refusal>
    ensures { verdict_of result ≡ (count_rule blocks then verdict_of between then lengths_rule have due) }
{
    design::check_count(blocks)?;
    between?;
    check_lengths(have, due)
}

// Rules 4 to 6: the number of blocks, the number of rounds, and the lengths, of which `due` are due where rule 4 accepts the number of blocks. Constant work.
pub fn check_frame(blocks: u64, rounds: u64, have: Lengths, due: Lengths) -> Result<(), Refusal>
    ensures { verdict_of result ≡ size_rules blocks rounds have due }
{
    check_sizes(blocks, design::check_rounds(rounds), have, due)
}

// A number of frames that rule 17 accepts, and 0 for one that it refuses.
fn frames_allowed(frames: u64) -> u64
    ensures { (result ≤ most-frames) × (frames ≤ most-frames → result ≡ frames) }
{
    if design::MOST_FRAMES < frames {
        return 0;
    }
    frames
}

// Rules 4, 17 and 6: the number of blocks, the number of frames, and the lengths, of which `due` are due where rules 4 and 17 accept these numbers. Constant
// work.
pub fn check_batch(blocks: u64, frames: u64, have: Lengths, due: Lengths) -> Result<(), Refusal>
    ensures { verdict_of result ≡ batch_size_rules blocks frames have due }
{
    check_sizes(blocks, design::check_batch(frames), have, due)
}
