// The decoder of original staircase frames: rules 1, 2, 19, 4, 5, 6 and 10, then rounds over the rows of all blocks, in place.
//   decode   corrects a buffer of blocks, and counts rounds, bits that differ from those received, rows outside the code at the end, and stuck rows of
//            the last round made
//
// The remainders of all rows are summed once, block by block, and kept in working bytes (crate `decoder_frame`). A round takes the blocks in order and
// corrects the rows whose kept number is not 0 (crate `decoder_words`), which keeps all numbers right. The rows outside the code at the end are those
// whose number is not 0. The bits that differ from those received are marked behind the numbers (crate `decoder_marks`).
#![tactic(auto)]

ghost use Rattle.std.specs.Prelude.{◌≡◌, ◌+◌, ◌*◌, ◌≤◌, length, Ok};
ghost use Rattle.staircase.specs.Design.{most-rounds};
ghost use Rattle.staircase.specs.Decoder.{run_each};
ghost use Rattle.staircase.specs.Outcomes.{last_stuck};
ghost use Rattle.answers.specs.Answers.{verdict_of, buffer_decoded};
ghost use Rattle.decoder_marks.specs.Marks.{MarksKept};
ghost use Rattle.original.specs.Frame.{row_words, buffer_of};
ghost use Rattle.original.specs.Rules.{original_work};
ghost use Rattle.original.specs.Calls.{original_decode_call};
ghost use Rattle.original_rows.specs.Rows.{BufferFits};
ghost use Rattle.decoder_words.specs.Ready.{WordTables};
ghost use Rattle.layout.specs.Layouts.{row_frames};
ghost use Rattle.original_decoder.specs.Kept.{marks_in, BufferKept};
ghost use Rattle.original_decoder.specs.Answers.{decode_rules, decoded_buffer};
ghost use Rattle.design.specs.Sizes.{params_of};

use answers::{Counts, Refusal};
use decoder_frame::{Made, Stretch};
use design::Design;
use layout::{Frames, Line, Shape};

// Rules 4 to 6 and 10 for a buffer of blocks that is to be decoded, with `work` working bytes. One pass over it.
fn check_received(
    d: Design,
    blocks: u64,
    rounds: u64,
    buffer: &[u8],
    work: usize,
) -> Result<(), Refusal>
    ensures { verdict_of result ≡ decode_rules (params_of d) blocks rounds buffer.now work }
{
    let due = rules::original_decoder_due(d, blocks);
    rules::check_buffer(blocks, rounds, due, buffer, work)
}

// Makes rounds over all rows until one flips nothing or `limit` of them are made.
fn run_rounds(
    d: Design,
    blocks: usize,
    limit: usize,
    tables: &[u32],
    field: &[u16],
    buffer: &mut [u8],
    kept: &mut [u8],
) -> Made
    requires { WordTables (row_frames d blocks) tables.now field.now × BufferKept d blocks buffer.old kept.old × (1 ≤ limit) × (limit ≤ most-rounds) }
    ensures { (record { frame = buffer_of buffer.new; rounds = result.rounds; flips = result.flips }
        ≡ run_each (row_words (params_of d) blocks) limit (buffer_of buffer.old))
        × (result.stuck ≡ last_stuck (row_words (params_of d) blocks) limit (buffer_of buffer.old))
        × BufferKept d blocks buffer.new kept.new
        × MarksKept (buffer_of buffer.old) (marks_in d blocks kept.old)
        (buffer_of buffer.new) (marks_in d blocks kept.new) }
{
    let frames = Frames {
        d,
        shape: Shape::Original,
        blocks,
    };
    let line = Line { frames, k: 0 };
    let stretch = Stretch {
        lines: blocks,
        limit,
    };
    decoder_frame::run_rounds(line, stretch, &[], tables, field, buffer, &mut [], kept)
}

// Runs the rounds over a buffer, with the tables of the design lent, and counts. The kept numbers of all rows stand first in `kept`, and behind them is
// room for the marks of the bits that differ from those received.
fn correct_rows(
    d: Design,
    blocks: usize,
    limit: usize,
    tables: &[u32],
    field: &[u16],
    buffer: &mut [u8],
    kept: &mut [u8],
) -> Counts
    requires { WordTables (row_frames d blocks) tables.now field.now × BufferKept d blocks buffer.old kept.old × (1 ≤ limit) × (limit ≤ most-rounds) }
    ensures { (buffer_decoded (Ok result) buffer.new ≡ decoded_buffer (params_of d) blocks limit buffer.old)
        × (length buffer.new ≡ length buffer.old) × (length kept.new ≡ length kept.old) }
{
    let size = d.size();
    let rows = blocks * size;
    let n = 4 * rows;
    let all = kept.len();
    decoder_marks::clear(&mut kept[n..all]);
    let made = run_rounds(d, blocks, limit, tables, field, buffer, kept);
    let turned = decoder_marks::count(&kept[n..all]);
    let outside = decoder_kept::count(&kept[0..n], rows);
    Counts {
        rounds: made.rounds as u64,
        turned,
        outside,
        stuck: made.stuck as u64,
    }
}

// Corrects a buffer some of whose rows are outside the code, and counts; `kept` as `correct_rows` has it.
fn correct_outside(
    d: Design,
    blocks: usize,
    limit: usize,
    buffer: &mut [u8],
    kept: &mut [u8],
) -> Counts
    requires { BufferKept d blocks buffer.old kept.old × (1 ≤ limit) × (limit ≤ most-rounds) }
    ensures { (buffer_decoded (Ok result) buffer.new ≡ decoded_buffer (params_of d) blocks limit buffer.old)
        × (length buffer.new ≡ length buffer.old) × (length kept.new ≡ length kept.old) }
{
    let frames = Frames {
        d,
        shape: Shape::Original,
        blocks,
    };
    let due = 2 * d.row_bits() + 128;
    let powers = 1 << d.m();
    let mut tables = decoder_frame::table_entries();
    let mut field = decoder_frame::field_entries();
    decoder_frame::fill_tables(frames, &mut tables[0..due], &mut field[0..4 * powers]);
    correct_rows(
        d,
        blocks,
        limit,
        &tables[0..due],
        &field[0..4 * powers],
        buffer,
        kept,
    )
}

// Corrects a received buffer whose arguments have passed all rules, and counts. Where all rows are in the code, no table of the field is made, no mark
// and no round: there would be a single idle one.
fn correct_buffer(
    d: Design,
    blocks: usize,
    limit: usize,
    buffer: &mut [u8],
    work: &mut [u8],
) -> Counts
    requires { BufferFits d blocks buffer.old × (length work.old ≡ original_work (params_of d) blocks) × (1 ≤ limit) × (limit ≤ most-rounds) }
    ensures { buffer_decoded (Ok result) buffer.new ≡ decoded_buffer (params_of d) blocks limit buffer.old }
{
    let size = d.size();
    let rows = blocks * size;
    let frames = Frames {
        d,
        shape: Shape::Original,
        blocks,
    };
    decoder_frame::fill_kept(frames, &[], &[], &buffer[..], &[], work);
    let wrong = decoder_kept::count(&work[0..4 * rows], rows);
    if wrong == 0 {
        return Counts {
            rounds: 1,
            turned: 0,
            outside: 0,
            stuck: 0,
        };
    }
    correct_outside(d, blocks, limit, buffer, work)
}

// Corrects the lent buffer of `blocks` blocks in place, in at most `rounds` rounds, 0 standing for the default, or refuses it by the first of rules 1, 2,
// 19, 4, 5, 6 and 10; a refused buffer is left as it was. The working bytes are four for each row and an eighth of the buffer's, and free afterwards. The
// work is one step for each bit of the rows, two for each bit of the buffer, and some more for each row that is outside the code when a round meets it.
pub fn decode_col(
    m: u64,
    t: u64,
    size: u64,
    col: u64,
    blocks: u64,
    rounds: u64,
    buffer: &mut [u8],
    work: &mut [u8],
) -> Result<Counts, Refusal>
    ensures { buffer_decoded result buffer.new ≡ original_decode_call m t size col blocks rounds buffer.old (length work.old) }
{
    let d = Design::of_original_col(m, t, size, col)?;
    check_received(d, blocks, rounds, &buffer[..], work.len())?;
    let limit = decoder_frame::rounds_allowed(rounds);
    Ok(correct_buffer(d, blocks as usize, limit, buffer, work))
}

// The same where rows and columns have one code.
pub fn decode(
    m: u64,
    t: u64,
    size: u64,
    blocks: u64,
    rounds: u64,
    buffer: &mut [u8],
    work: &mut [u8],
) -> Result<Counts, Refusal>
    ensures { buffer_decoded result buffer.new ≡ original_decode_call m t size 0 blocks rounds buffer.old (length work.old) }
{
    decode_col(m, t, size, 0, blocks, rounds, buffer, work)
}
