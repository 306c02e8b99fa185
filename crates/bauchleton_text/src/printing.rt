// Writing texts for a host in C, and what the programs print.
//   bauchleton_block_line, bauchleton_group_line       the line of a block, of a group
//   bauchleton_refusal_lines, bauchleton_count_lines   the two lines of a refusal, of the decoder's counts
//   bauchleton_frame, bauchleton_mend                  what `frame` and `mend` print
//   bauchleton_makekit                                 what `makekit` prints
//
// A line is written from the position `at` on, where it has room, and the position after it is answered; where it has none, nothing is written and
// the answer is `at`.
ghost use Rattle.std.specs.Prelude.{◌≡◌};
ghost use Rattle.text.specs.FrameText.{bits_text, group_line_text};
ghost use Rattle.text.specs.Programs.{refusal_text, counts_text, frame_output, mend_output};
ghost use Rattle.text.specs.MakeKit.{make_kit_output};
ghost use Rattle.text_write.specs.Room.{after, puts};
ghost use Rattle.program.specs.Output.{Output};

// The line of a block, its number and its bits; of a byte above 1 the last bit counts.
#[unsafe(no_mangle)]
pub extern "C" fn bauchleton_block_line(
    out: &mut [u8],
    at: usize,
    number: u64,
    bits: &[u8],
) -> usize
    ensures value { result ≡ after out.old at (bits_text number bits.now) }
    ensures out_after { out.new ≡ puts out.old at (bits_text number bits.now) }
{
    text_write::block_line(out, at, number, bits)
}

// The line of a group, its number, Y and P; of a byte above 1 the last bit counts.
#[unsafe(no_mangle)]
pub extern "C" fn bauchleton_group_line(
    out: &mut [u8],
    at: usize,
    number: u64,
    own: &[u8],
    parity: &[u8],
) -> usize
    ensures value { result ≡ after out.old at (group_line_text number own.now parity.now) }
    ensures out_after { out.new ≡ puts out.old at (group_line_text number own.now parity.now) }
{
    text_write::group_line(out, at, number, own, parity)
}

// The two lines of a refusal.
#[unsafe(no_mangle)]
pub extern "C" fn bauchleton_refusal_lines(
    out: &mut [u8],
    at: usize,
    rule: u64,
    place: u64,
) -> usize
    ensures value { result ≡ after out.old at (refusal_text rule place) }
    ensures out_after { out.new ≡ puts out.old at (refusal_text rule place) }
{
    text_write::refusal_lines(out, at, rule, place)
}

// The two lines of the decoder's counts.
#[unsafe(no_mangle)]
pub extern "C" fn bauchleton_count_lines(
    out: &mut [u8],
    at: usize,
    rounds: u64,
    turned: u64,
    outside: u64,
) -> usize
    ensures value { result ≡ after out.old at (counts_text rounds turned outside) }
    ensures out_after { out.new ≡ puts out.old at (counts_text rounds turned outside) }
{
    text_write::count_lines(out, at, rounds, turned, outside)
}

// What `frame` prints for the bytes of kit.txt and of its input, written to the start of `out`, which has at least 262,144 bytes; the answer is its
// length. A shorter `out` is left as it was, and the answer is 0.
#[unsafe(no_mangle)]
pub extern "C" fn bauchleton_frame(kit: &[u8], text: &[u8], out: &mut [u8]) -> usize
    ensures { Output (frame_output kit.now text.now) result out.old out.new }
{
    program_frame::frame_output(kit, text, out)
}

// What `mend` prints, likewise.
#[unsafe(no_mangle)]
pub extern "C" fn bauchleton_mend(kit: &[u8], text: &[u8], out: &mut [u8]) -> usize
    ensures { Output (mend_output kit.now text.now) result out.old out.new }
{
    program_mend::mend_output(kit, text, out)
}

// What `makekit` prints for the bytes of its input, a list text, likewise.
#[unsafe(no_mangle)]
pub extern "C" fn bauchleton_makekit(text: &[u8], out: &mut [u8]) -> usize
    ensures { Output (make_kit_output text.now) result out.old out.new }
{
    program_makekit::makekit_output(text, out)
}
