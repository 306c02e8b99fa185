// What `mend` prints, as bytes.
//   mend_output(kit, text, out)   for the bytes of kit.txt and block text followed by group text
#![tactic(auto)]

ghost use Rattle.std.specs.Prelude.{◌≤◌, length};
ghost use Rattle.staircase.specs.Frame.{frame_of};
ghost use Rattle.design.specs.Sizes.{order_of};
ghost use Rattle.answers.specs.Answers.{corrected_of};
ghost use Rattle.program.specs.Output.{Printed, most-output, Output};
ghost use Rattle.text.specs.Programs.{printed, mend_text, mend_output};
ghost use Rattle.program.specs.declared.Text.TheVariants.{Frame};
ghost use Rattle.program.specs.Steps.{Scanned, RoomFor, MendReady, FrameSized};

use answers::{Counts, Refusal};
use design::Design;
use program::Text;

// The decoder's working bytes. Only their room is told: a kit text of at most 32,768 bytes has at most 181 rows, and a frame text of as many shows at most
// 32,768 bits, each of which has a mark, eight in a byte; a word has 2 r of those of redundancy, and so 8 at least, and four working bytes.
fn working_bytes(n: usize) -> [u8; 37045]
    requires { n ≤ 37045 }
    ensures { RoomFor n result }
{
    [0; 37045]
}

// Writes both texts of a corrected frame and the three counts.
fn put_corrected(
    out: &mut [u8],
    d: Design,
    blocks: u64,
    info: &[u8],
    red: &[u8],
    counts: Counts,
) -> usize
    requires frame_sized { FrameSized d blocks (length info.now) (length red.now) }
    requires most_output_in_bounds { most-output ≤ length out.old }
    ensures { Printed (mend_text d.size (order_of d) blocks (corrected_of (Ok counts) (frame_of info.now red.now)))
        result out.old out.new }
{
    let groups = design::group_count(blocks);
    let i = text_lines::put_blocks(out, 0, d.area(), blocks as usize, info);
    let j = text_lines::put_groups(out, i, d.order(), groups as usize, red);
    text_write::count_lines(out, j, counts.rounds, counts.turned, counts.outside)
}

// Writes the frame that the decoder corrected, or its refusal.
fn put_decoded(
    out: &mut [u8],
    d: Design,
    blocks: u64,
    info: &[u8],
    red: &[u8],
    made: Result<Counts, Refusal>,
) -> usize
    requires frame_sized { FrameSized d blocks (length info.now) (length red.now) }
    requires most_output_in_bounds { most-output ≤ length out.old }
    ensures { let c = corrected_of made (frame_of info.now red.now) in
        Printed (printed c.verdict (mend_text d.size (order_of d) blocks c)) result out.old out.new }
{
    match made {
        Err(r) => program::put_refused(out, r),
        Ok(c) => put_corrected(out, d, blocks, info, red, c),
    }
}

// Reads kit and frame, which are accepted, into slices that fit, decodes, and writes the corrected frame or the refusal.
fn mend_call(
    kit: &[u8],
    text: &[u8],
    d: Design,
    blocks: u64,
    own: &mut [u8],
    parity: &mut [u8],
    inverse: &mut [u8],
    info: &mut [u8],
    red: &mut [u8],
    work: &mut [u8],
    out: &mut [u8],
) -> usize
    requires mend_ready { MendReady d blocks kit.now text.now (length own.old) (length parity.old) (length inverse.old) (length info.old)
        (length red.old) (length work.old) }
    requires most_output_in_bounds { most-output ≤ length out.old }
    ensures { Printed (mend_output kit.now text.now) result out.old out.new }
{
    text_kit::read_kit(kit, own, parity, inverse).unwrap();
    text_frame::read_frame(text, d, info, red).unwrap();
    let made = decoder::decode(
        d.m() as u64,
        d.t() as u64,
        d.size() as u64,
        blocks,
        0,
        own,
        parity,
        info,
        red,
        work,
    );
    put_decoded(out, d, blocks, info, red, made)
}

// The arrays that the call is lent.
// kept beside that of `frame`: a closure lent the three arrays both share has a contract longer than they are
fn mend_arrays(kit: &[u8], text: &[u8], d: Design, blocks: u64, out: &mut [u8]) -> usize
    requires scanned { Scanned Frame d blocks kit.now text.now }
    requires most_output_in_bounds { most-output ≤ length out.old }
    ensures { Printed (mend_output kit.now text.now) result out.old out.new }
{
    let s = program::sizes_of(d, blocks);
    let mut own = program::list_bytes(s.list);
    let mut parity = program::list_bytes(s.list);
    let mut inverse = program::matrix_bytes(s.inverse);
    let due = rules::decoder_due(d, blocks);
    let mut work = working_bytes(due.work);
    let mut info = program::text_bits(s.info);
    let mut red = program::text_bits(s.red);
    mend_call(
        kit,
        text,
        d,
        blocks,
        &mut own[..s.list],
        &mut parity[..s.list],
        &mut inverse[..s.inverse],
        &mut info[..s.info],
        &mut red[..s.red],
        &mut work[..due.work],
        out,
    )
}

// Both inputs, and what `mend` prints of them, for which there is room.
// kept beside that of `frame`: a closure for the call has a contract for every design and number of blocks
fn mend_inputs(kit: &[u8], text: &[u8], out: &mut [u8]) -> usize
    requires { most-output ≤ length out.old }
    ensures { Printed (mend_output kit.now text.now) result out.old out.new }
{
    match program::begin(kit, text, Text::Frame) {
        Ok((d, blocks)) => mend_arrays(kit, text, d, blocks, out),
        Err(judged) => program::put_refusal(out, judged.rule, judged.place),
    }
}

// Writes what `mend` prints to the start of `out` and answers its length. An `out` of fewer than 262,144 bytes is left as it was, and the answer is 0.
pub fn mend_output(kit: &[u8], text: &[u8], out: &mut [u8]) -> usize
    ensures { Output (mend_output kit.now text.now) result out.old out.new }
{
    if out.len() < program::MOST_OUTPUT {
        return 0;
    }
    mend_inputs(kit, text, out)
}
