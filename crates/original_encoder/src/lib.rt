// The encoder of original staircase frames: rules 1, 2, 19, 4, 6 and 10, then the parity of every row, written in place.
//   encode   writes the last r columns of each block
//
// First the parity columns of all blocks are made 0. The remainder of a row whose parity is 0 has the parity as its digits, so block after block the
// remainders of all its rows are taken at once (crate `words_lines`), and their digits written. The rows of a block share no bit, and a row has bits of
// its own block and of the one before, whose parity is written by then. Where a frame has bits enough, tables of sums are made first, by which eight bits of
// a row are added at once (crate `words_tables`).
#![tactic(auto)]

ghost use Rattle.std.specs.Prelude.{◌≡◌, false, ◌+◌, ◌-◌, ◌*◌, ◌≤◌, ◌<◌, length, get_or};
ghost use Rattle.answers.specs.Answers.{verdict_of, written_of};
ghost use Rattle.layout.specs.declared.Shape.TheVariants.{Original};
ghost use Rattle.layout.specs.Layouts.{tail_in};
ghost use Rattle.words_tables.specs.Tables.{table_length, MayParts};
ghost use Rattle.words_lines.specs.Words.{ReadTable};
ghost use Rattle.original.specs.Frame.{encoded};
ghost use Rattle.original.specs.Demand.{InfoBits};
ghost use Rattle.original.specs.Calls.{original_encode_call};
ghost use Rattle.design.specs.Answers.{AllowedOriginal};
ghost use Rattle.original_rows.specs.Rows.{BufferFits};
ghost use Rattle.original_encoder.specs.Written.{row_remainders, DigitsAt, RowsAt, ParityZero, BufferLong, width_bits, encode_rules};
ghost use Rattle.design.specs.Sizes.{params_of};

use answers::Refusal;
use design::Design;
use layout::{Frames, Line, Shape};
use rules::Lengths;

// Writes the r low bits of x, the highest first, from byte `from` on. They are taken from the last on, which is two steps a bit.
fn put_digits(x: u32, r: usize, from: usize, buffer: &mut [u8])
    requires { (r ≤ 30) × (from + r ≤ length buffer.old) }
    ensures { DigitsAt r r from x buffer.old buffer.new }
{
    let mut rest = x;
    for j in (0..r).rev() {
        buffer[from + j] = (rest % 2) as u8;
        rest = rest / 2;
    }
}

// Writes the digits of each of `sums` at the end of its row of the block that begins at byte `at`.
fn put_rows(sums: &[u32], r: usize, at: usize, buffer: &mut [u8])
    requires { (r ≤ 30) × (r ≤ length sums.now) × (length sums.now ≤ 512) × (at + length sums.now * length sums.now ≤ length buffer.old) }
    ensures { RowsAt (length sums.now) (length sums.now) r at (λ a. get_or sums.now a 0) buffer.old buffer.new }
{
    let size = sums.len();
    for (a, &sum) in sums.iter().enumerate() {
        put_digits(sum, r, at + a * size + (size - r), buffer);
    }
}

// Makes the parity of a buffer of rows 0.
fn clear_parity(size: usize, r: usize, rows: usize, buffer: &mut [u8])
    requires { (r ≤ 30) × (r ≤ size) × (rows * size ≡ length buffer.old) × (length buffer.old ≤ 1073741824) }
    ensures { RowsAt rows size r 0 (λ a. 0) buffer.old buffer.new }
{
    // kept as an index loop: chunks_exact_mut would leave `rows`, of which the contract speaks, unread
    for i in 0..rows {
        put_digits(0, r, i * size + (size - r), buffer);
    }
}

// Encodes the block that b blocks precede, whose parity is 0. The tables are those of the powers that the two blocks of a row's word carry, or none. `sums` are
// working entries, one for each row.
fn encode_block(
    d: Design,
    blocks: usize,
    b: usize,
    positions: &[u32],
    tables: &[u32],
    sums: &mut [u32],
    buffer: &mut [u8],
)
    requires { BufferFits d blocks buffer.old × (b < blocks) × ReadTable Original (params_of d) false positions.now × (length sums.old ≡ d.size)
        × MayParts positions.now d.size (tail_in Original (params_of d)) tables.now }
    ensures { RowsAt d.size d.size (d.m * d.t) (b * (d.size * d.size)) (λ a. get_or (row_remainders (params_of d) buffer.old b) a 0)
        buffer.old buffer.new × (length sums.new ≡ length sums.old) }
{
    let area = d.area();
    let r = d.r();
    let frames = Frames {
        d,
        shape: Shape::Original,
        blocks,
    };
    let line = Line { frames, k: b };
    words_lines::line_remainders(line, &[], &[], &buffer[..], &[], positions, tables, sums);
    put_rows(&sums[..], r, b * area, buffer);
}

// Encodes all blocks of a buffer of bits whose parity is 0, one after the other. The tables are those of the powers that the two blocks of a row's word carry,
// or none.
fn encode_blocks(
    d: Design,
    blocks: usize,
    positions: &[u32],
    tables: &[u32],
    sums: &mut [u32],
    buffer: &mut [u8],
)
    requires { BufferFits d blocks buffer.old × ReadTable Original (params_of d) false positions.now × (length sums.old ≡ d.size) × ParityZero (params_of d) buffer.old
        × MayParts positions.now d.size (tail_in Original (params_of d)) tables.now }
    ensures { buffer.new ≡ encoded (params_of d) blocks buffer.old }
{
    for b in 0..blocks {
        encode_block(d, blocks, b, positions, tables, sums, buffer);
    }
}

// `encode_cleared` by tables of sums, which are to have `due` entries.
fn encode_by_tables(d: Design, blocks: usize, positions: &[u32], due: usize, buffer: &mut [u8])
    requires { BufferFits d blocks buffer.old × ReadTable Original (params_of d) false positions.now × ParityZero (params_of d) buffer.old × (due ≤ 36864)
        × (due ≡ 2 * table_length d.size + 2 * table_length (tail_in Original (params_of d))) }
    ensures { buffer.new ≡ encoded (params_of d) blocks buffer.old }
{
    let size = d.size();
    let mut tables = words_tables::entries();
    words_tables::fill_parts(positions, size, 0, &mut tables[0..due]);
    let mut sums = words_lines::sum_entries();
    encode_blocks(
        d,
        blocks,
        positions,
        &tables[0..due],
        &mut sums[0..size],
        buffer,
    );
}

// Encodes a buffer of bits whose parity is 0, with the powers of x lent: by tables of sums where the buffer has bits enough.
fn encode_cleared(d: Design, blocks: usize, positions: &[u32], buffer: &mut [u8])
    requires { BufferFits d blocks buffer.old × ReadTable Original (params_of d) false positions.now × ParityZero (params_of d) buffer.old }
    ensures { buffer.new ≡ encoded (params_of d) blocks buffer.old }
{
    let size = d.size();
    let due = words_tables::parts_due(blocks, size, 0);
    if due == 0 {
        let mut sums = words_lines::sum_entries();
        return encode_blocks(d, blocks, positions, &[], &mut sums[0..size], buffer);
    }
    encode_by_tables(d, blocks, positions, due, buffer)
}

// Encodes a buffer of blocks whose information is bits.
fn encode_buffer(d: Design, blocks: usize, buffer: &mut [u8])
    requires { BufferLong d blocks buffer.old × InfoBits (params_of d) buffer.old }
    ensures { buffer.new ≡ encoded (params_of d) blocks buffer.old }
{
    let size = d.size();
    let bits = d.row_bits();
    let r = d.r();
    let m = d.m();
    let t = d.t();
    let mut positions = [0u32; 1024];
    words_positions::fill_code(m, t, &mut positions[0..bits]);
    clear_parity(size, r, blocks * size, buffer);
    encode_cleared(d, blocks, &positions[0..bits], buffer);
}

// Rule 10 for the information of a buffer of rows.
fn check_rows(size: usize, width: usize, rows: usize, buffer: &[u8]) -> Result<(), Refusal>
    requires { (width ≤ size) × (0 < size) × (rows * size ≡ length buffer.now) × (length buffer.now ≤ 1073741824) }
    ensures { verdict_of result ≡ width_bits size width buffer.now }
{
    // kept as an index loop: rule 10 asks for the byte at which a row begins, and chunks_exact leaves `rows` unread
    for i in 0..rows {
        let at = i * size;
        rules::check_bits(&buffer[at..at + width], at as u64)?;
    }
    Ok(())
}

// Rules 4, 6 and 10 for a buffer that is to be encoded. One pass over its information.
fn check_information(d: Design, blocks: u64, buffer: &[u8]) -> Result<(), Refusal>
    requires { AllowedOriginal d }
    ensures { verdict_of result ≡ encode_rules (params_of d) blocks buffer.now }
{
    let have = Lengths {
        own: 0,
        parity: 0,
        inverse: 0,
        info: buffer.len(),
        red: 0,
        work: 0,
    };
    let due = rules::original_due(d, blocks);
    rules::check_frame(blocks, 0, have, due)?;
    let size = d.size();
    let r = d.r();
    check_rows(size, size - r, (blocks as usize) * size, buffer)
}

// The encoder: writes the last r columns of each block of the lent buffer of `blocks` blocks, or refuses it by the first of rules 1, 2, 19, 4, 6 and 10;
// a refused buffer is left as it was. Rule 10 does not judge what the last r columns held. The work is one step for each bit of the rows, two for each bit
// of the buffer.
pub fn encode_col(
    m: u64,
    t: u64,
    size: u64,
    col: u64,
    blocks: u64,
    buffer: &mut [u8],
) -> Result<(), Refusal>
    ensures { written_of result buffer.new ≡ original_encode_call m t size col blocks buffer.old }
{
    let d = Design::of_original_col(m, t, size, col)?;
    check_information(d, blocks, &buffer[..])?;
    encode_buffer(d, blocks as usize, buffer);
    Ok(())
}

// The same where rows and columns have one code.
pub fn encode(m: u64, t: u64, size: u64, blocks: u64, buffer: &mut [u8]) -> Result<(), Refusal>
    ensures { written_of result buffer.new ≡ original_encode_call m t size 0 blocks buffer.old }
{
    encode_col(m, t, size, 0, blocks, buffer)
}
