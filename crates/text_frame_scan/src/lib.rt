// Judging block text and frame text, which is block text followed by group text: nothing is written. The crate `text_frame` has the readers over it.
//   judge_blocks(text, area)     block text, of `area` bits a block: its number of blocks, or the place where it goes wrong
//   judge_frame(text, area, n)   the same for frame text, with Y and P of n bits
//
// A function that reads at a position answers the position after what it read, or the place where that goes wrong; each goes once through what it
// reads. No argument of the two calls is required to be in any range. Contracts cite the formats of
// FrameText in the crate `text`.
#![tactic(auto)]

ghost use Rattle.std.specs.Prelude.{◌≡◌, ◌++◌, ◌-◌, ◌≤◌, ◌<◌};
ghost use Rattle.staircase.specs.Design.{most-blocks};
ghost use Rattle.text_formats.specs.Format.{scan};
ghost use Rattle.text_formats.specs.Items.{lits, bits_line, walk, scan_at, verdict};
ghost use Rattle.text_items.specs.Answers.{step_of};
ghost use Rattle.text.specs.FrameText.{block_tail, block_format, group_line, group_lines, group_tail, frame_tail, frame_format, block_names};
ghost use Rattle.text_frame_scan.specs.Judged.{found_scan};

use text_items::Broken;

// "for 1 to 4,096 blocks"
const MOST_BLOCKS: usize = design::MOST_BLOCKS as usize;

// `block bits` and the line of block 1.
fn front(s: &[u8], area: usize) -> Result<usize, Broken>
    ensures { result ≡ step_of (walk (lits block_names ++ bits_line area 1) s.now 0) }
{
    let i = text_items::literal(s, 0, b"block bits\n")?;
    text_items::bits_line(s, i, area, 1)
}

// Block text after the line of block 1, which ends before `at`.
fn more_blocks(s: &[u8], at: usize, area: usize) -> Result<usize, Broken>
    ensures { found_scan result ≡ verdict (scan_at (block_tail area (most-blocks - 1) 1) s.now at) }
{
    let mut q = at;
    for i in 1..MOST_BLOCKS {
        if s.len() <= q {
            return Ok(i);
        }
        q = text_items::bits_line(s, q, area, i + 1)?;
    }
    if s.len() <= q {
        return Ok(MOST_BLOCKS);
    }
    Err(Broken { place: q })
}

// Block text: its number of blocks, or the place where it goes wrong. Writes nothing.
pub fn judge_blocks(s: &[u8], area: usize) -> Result<usize, Broken>
    ensures { found_scan result ≡ verdict (scan (block_format area most-blocks) s.now) }
{
    let e = front(s, area)?;
    more_blocks(s, e, area)
}

// The line of a group: its number and twice n bits.
fn group_line(s: &[u8], at: usize, n: usize, p: usize) -> Result<usize, Broken>
    requires { p < 10000 }
    ensures { result ≡ step_of (walk (group_line n p) s.now at) }
{
    let i = text_items::number_is(s, at, p)?;
    let j = text_items::bits_part(s, i, n)?;
    let e = text_items::bits_part(s, j, n)?;
    text_items::byte_is(s, e, 10)
}

// The lines of the groups 1 to `count`.
fn group_lines(s: &[u8], at: usize, n: usize, count: usize) -> Result<usize, Broken>
    requires { count ≤ most-blocks }
    ensures { result ≡ step_of (walk (group_lines n 1 count) s.now at) }
{
    let mut q = at;
    for i in 0..count {
        q = group_line(s, q, n, i + 1)?;
    }
    Ok(q)
}

// The group text of `blocks` blocks behind its first byte, up to the end of the text.
fn group_text(s: &[u8], at: usize, n: usize, blocks: usize) -> Result<usize, Broken>
    requires { blocks ≤ most-blocks }
    ensures { found_scan result ≡ verdict (scan_at (group_tail n blocks) s.now at) }
{
    let i = text_items::literal(s, at, b"roup self parity\n")?;
    let groups = design::group_count(blocks as u64);
    let e = group_lines(s, i, n, groups as usize)?;
    if e < s.len() {
        return Err(Broken { place: e });
    }
    Ok(blocks)
}

// Frame text after the line of block 1, which ends before `at`.
fn more_frame(s: &[u8], at: usize, area: usize, n: usize) -> Result<usize, Broken>
    ensures { found_scan result ≡ verdict (scan_at (frame_tail area n (most-blocks - 1) 1) s.now at) }
{
    let mut q = at;
    for blocks in 1..MOST_BLOCKS {
        if let Ok(j) = text_items::byte_is(s, q, 103) {
            return group_text(s, j, n, blocks);
        }
        q = text_items::bits_line(s, q, area, blocks + 1)?;
    }
    let j = text_items::byte_is(s, q, 103)?;
    group_text(s, j, n, MOST_BLOCKS)
}

// Frame text: its number of blocks, or the place where it goes wrong. Writes nothing.
pub fn judge_frame(s: &[u8], area: usize, n: usize) -> Result<usize, Broken>
    ensures { found_scan result ≡ verdict (scan (frame_format area n most-blocks) s.now) }
{
    let e = front(s, area)?;
    more_frame(s, e, area, n)
}
