// What `frame` prints, as bytes.
//   frame_output(kit, text, out)   for the bytes of kit.txt and a block text
#![tactic(auto)]

ghost use Rattle.std.specs.Prelude.{◌≤◌, length};
ghost use Rattle.staircase.specs.Frame.{groups};
ghost use Rattle.answers.specs.Answers.{verdict_of};
ghost use Rattle.design.specs.Sizes.{order_of};
ghost use Rattle.text.specs.FrameText.{group_text};
ghost use Rattle.program.specs.Output.{Printed, most-output, Output};
ghost use Rattle.text.specs.Programs.{printed, frame_output};
ghost use Rattle.program.specs.declared.Text.TheVariants.{Blocks};
ghost use Rattle.program.specs.Steps.{Scanned, RoomFor, FrameReady, GroupsFit};

use answers::Refusal;
use design::Design;
use program::Text;

// Redundancy of as many groups as the longest block text has. Only its room is told: at most 8,192 rows of blocks with r of at most 30 bits each, and
// M × r, at most 181, more where the number of blocks is odd.
fn group_bits(n: usize) -> [u8; 245941]
    requires { n ≤ 245941 }
    ensures { RoomFor n result }
{
    [0; 245941]
}

// Writes the groups that the encoder made, or its refusal.
fn put_encoded(
    out: &mut [u8],
    d: Design,
    blocks: u64,
    red: &[u8],
    made: Result<(), Refusal>,
) -> usize
    requires groups_fit { GroupsFit d blocks (length red.now) }
    requires most_output_in_bounds { most-output ≤ length out.old }
    ensures { Printed (printed (verdict_of made) (group_text (order_of d) (groups blocks) red.now)) result out.old out.new }
{
    match made {
        Err(r) => program::put_refused(out, r),
        Ok(()) => {
            let groups = design::group_count(blocks);
            text_lines::put_groups(out, 0, d.order(), groups as usize, red)
        }
    }
}

// Reads kit and blocks, which are accepted, into slices that fit, encodes, and writes the groups or the refusal.
fn frame_call(
    kit: &[u8],
    text: &[u8],
    d: Design,
    blocks: u64,
    own: &mut [u8],
    parity: &mut [u8],
    inverse: &mut [u8],
    info: &mut [u8],
    red: &mut [u8],
    work: &mut [u8],
    out: &mut [u8],
) -> usize
    requires frame_ready { FrameReady d blocks kit.now text.now (length own.old) (length parity.old) (length inverse.old) (length info.old) (length red.old)
        (length work.old) }
    requires most_output_in_bounds { most-output ≤ length out.old }
    ensures { Printed (frame_output kit.now text.now) result out.old out.new }
{
    text_kit::read_kit(kit, own, parity, inverse).unwrap();
    text_frame::read_blocks(text, d, info).unwrap();
    let made = encoder::encode(
        d.m() as u64,
        d.t() as u64,
        d.size() as u64,
        blocks,
        own,
        parity,
        inverse,
        info,
        red,
        work,
    );
    put_encoded(out, d, blocks, red, made)
}

// The arrays that the call is lent.
// kept beside that of `mend`: a closure lent the three arrays both share has a contract longer than they are
fn frame_arrays(kit: &[u8], text: &[u8], d: Design, blocks: u64, out: &mut [u8]) -> usize
    requires scanned { Scanned Blocks d blocks kit.now text.now }
    requires most_output_in_bounds { most-output ≤ length out.old }
    ensures { Printed (frame_output kit.now text.now) result out.old out.new }
{
    let s = program::sizes_of(d, blocks);
    let mut own = program::list_bytes(s.list);
    let mut parity = program::list_bytes(s.list);
    let mut inverse = program::matrix_bytes(s.inverse);
    let mut work = program::matrix_bytes(s.inverse);
    let mut info = program::text_bits(s.info);
    let mut red = group_bits(s.red);
    frame_call(
        kit,
        text,
        d,
        blocks,
        &mut own[..s.list],
        &mut parity[..s.list],
        &mut inverse[..s.inverse],
        &mut info[..s.info],
        &mut red[..s.red],
        &mut work[..s.inverse],
        out,
    )
}

// Both inputs, and what `frame` prints of them, for which there is room.
// kept beside that of `mend`: a closure for the call has a contract for every design and number of blocks
fn frame_inputs(kit: &[u8], text: &[u8], out: &mut [u8]) -> usize
    requires { most-output ≤ length out.old }
    ensures { Printed (frame_output kit.now text.now) result out.old out.new }
{
    match program::begin(kit, text, Text::Blocks) {
        Ok((d, blocks)) => frame_arrays(kit, text, d, blocks, out),
        Err(judged) => program::put_refusal(out, judged.rule, judged.place),
    }
}

// Writes what `frame` prints to the start of `out` and answers its length. An `out` of fewer than 262,144 bytes is left as it was, and the answer is 0.
pub fn frame_output(kit: &[u8], text: &[u8], out: &mut [u8]) -> usize
    ensures { Output (frame_output kit.now text.now) result out.old out.new }
{
    if out.len() < program::MOST_OUTPUT {
        return 0;
    }
    frame_inputs(kit, text, out)
}
