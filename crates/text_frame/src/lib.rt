// Block text, and frame text, which is block text followed by group text: the texts that the programs read, judged by rule 12 and read into buffers.
//   scan_blocks(text, d)               rule 12 for block text: the number of blocks, or the place
//   read_blocks(text, d, info)         the same, then rule 6, then the information
//   scan_frame(text, d)                rule 12 for frame text
//   read_frame(text, d, info, red)     the same, then rule 6 for both buffers, then the information and the redundancy
//
// A call judges the whole text first and writes nothing while it does (the crate `text_frame_scan`); the number of blocks that it finds decides the
// lengths that rule 6 asks for. Then it goes through the text once more and writes each bit into a byte of its own (the crate `text_frame_fill`):
// what is read the second time is known to be there. So a refused call leaves every buffer as it was. Each pass is one step for each byte of the
// text. No argument is required to be in any range: a design's sizes are at most 2^32, and a text that is accepted has at most 4,096 blocks, so the
// lengths fit.
//
// Contracts cite FrameReader in the crate `text`. FramePromises there says what its definitions mean: the accepted texts are exactly the texts of the
// format with the bits that are read, and a refusal's place is the longest start that some text shares.
#![tactic(auto)]

ghost use Rattle.std.specs.Prelude.{◌≡◌, ◌*◌};
ghost use Rattle.text_frame.specs.Answers.{blocks_verdict, CountIs};
ghost use Rattle.text.specs.FrameReader.{block_rule, block_count, read_blocks_call, frame_rule, frame_count, read_frame_call};

use answers::TextError;
use design::Design;

// Where the line of block 1 begins: behind `block bits` and a line feed.
const BLOCK_LINES: usize = 11;

// The bytes of `group self parity` and a line feed, which stand between the last block's line and the first group's.
const GROUP_NAMES: usize = 18;

// Rule 12 for block text: the number of blocks, or the place. One step for each byte of the text, as in the functions below.
pub fn scan_blocks(text: &[u8], d: Design) -> Result<u64, TextError>
    ensures result_value { blocks_verdict result ≡ block_rule d.size text.now }
    ensures count_is { CountIs result (block_count d.size text.now) }
{
    let n = text_frame_scan::judge_blocks(text, d.area())?;
    Ok(n as u64)
}

// Block text, read into the lent information: the number of blocks; or the refusal by rule 6; or the place of rule 12.
pub fn read_blocks(text: &[u8], d: Design, info: &mut [u8]) -> Result<u64, TextError>
    ensures result_value { blocks_verdict result ≡ (read_blocks_call d.size text.now info.old).verdict }
    ensures count_is { CountIs result (block_count d.size text.now) }
    ensures info_after { info.new ≡ (read_blocks_call d.size text.now info.old).info }
{
    let area = d.area();
    let n = text_frame_scan::judge_blocks(text, area)?;
    rules::check_length(rules::INFORMATION, info.len(), n * area)?;
    text_frame_fill::fill_lines(text, BLOCK_LINES, n, area, info);
    Ok(n as u64)
}

// Rule 12 for frame text.
pub fn scan_frame(text: &[u8], d: Design) -> Result<u64, TextError>
    ensures result_value { blocks_verdict result ≡ frame_rule d.size (d.m * d.t) text.now }
    ensures count_is { CountIs result (frame_count d.size (d.m * d.t) text.now) }
{
    let blocks = text_frame_scan::judge_frame(text, d.area(), d.order())?;
    Ok(blocks as u64)
}

// Frame text, read into the lent information and redundancy.
pub fn read_frame(text: &[u8], d: Design, info: &mut [u8], red: &mut [u8]) -> Result<u64, TextError>
    ensures result_value { blocks_verdict result ≡ (read_frame_call d.size (d.m * d.t) text.now info.old red.old).verdict }
    ensures count_is { CountIs result (frame_count d.size (d.m * d.t) text.now) }
    ensures info_after { info.new ≡ (read_frame_call d.size (d.m * d.t) text.now info.old red.old).info }
    ensures red_after { red.new ≡ (read_frame_call d.size (d.m * d.t) text.now info.old red.old).red }
{
    let area = d.area();
    let n = d.order();
    let blocks = text_frame_scan::judge_frame(text, area, n)?;
    rules::check_frame_lengths(d, blocks as u64, info, red)?;
    let groups = design::group_count(blocks as u64);
    let middle = text_frame_fill::fill_lines(text, BLOCK_LINES, blocks, area, info);
    text_frame_fill::fill_groups(text, middle + GROUP_NAMES, groups as usize, n, red);
    Ok(blocks as u64)
}
