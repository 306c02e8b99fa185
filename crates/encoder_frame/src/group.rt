// One group of a frame, before and after its system is solved.
//   Sizes              the sizes that all groups of a call share
//   start_group(..)    Q and P as they would be for Y = 0
//   finish_group(..)   Y from its solution, and P with what Y adds
//
// The remainder of a word is a sum of entries of a table of powers of x, one for each of its ones (crate `bch_remainders`), and P and Q are the digits
// of remainders. A sum's digits are the sums of the digits, so P for Y = 0 is all that has to be kept of the blocks while the systems of other groups are
// made, and it stands where P will stand.
ghost use Rattle.std.specs.Prelude.{◌≡◌, ◌*◌, ◌≤◌, ◌<◌, length, get_or};
ghost use Rattle.bch.specs.Polynomial.{Bits};
ghost use Rattle.staircase.specs.Lists.{tabulate};
ghost use Rattle.staircase.specs.Design.{most-order};
ghost use Rattle.staircase.specs.Frame.{groups};
ghost use Rattle.words_blocks.specs.Blocks.{BlockLent};
ghost use Rattle.encoder_frame.specs.Group.{row_digit, column_digit, finished_of, WordTables};
ghost use Rattle.encoder_frame.specs.Groups.{start_from, FrameReady};

// The block size, the parity bits of a word, the blocks of a frame and the frames of a batch.
#[derive(Clone, Copy)]
pub struct Sizes {
    pub size: usize,
    pub r: usize,
    pub blocks: usize,
    pub frames: usize,
}

// Makes Q in `out` for Y = 0, from the block before the odd one, which is empty where it is not sent, and the odd one.
fn start_rows(before: &[u8], odd: &[u8], positions: &[u32], size: usize, r: usize, out: &mut [u8])
    requires { WordTables size r positions.now × BlockLent before.now (size * size) × BlockLent odd.now (size * size)
        × (length out.old ≡ size * r) }
    ensures { out.new ≡ tabulate (size * r)
        (row_digit positions.now size r (λ k. get_or before.now k 0) (λ k. get_or odd.now k 0)) }
{
    let mut rows = [0u32; 512];
    words_blocks::row_sums(before, odd, positions, &mut rows[0..size]);
    encoder_solution::p_bits(&rows[0..size], size, r, out);
}

// Makes P in `out` for Y = 0, from the odd block and the even one, which is empty where it is not sent.
fn start_columns(odd: &[u8], even: &[u8], positions: &[u32], size: usize, r: usize, out: &mut [u8])
    requires { WordTables size r positions.now × BlockLent odd.now (size * size) × BlockLent even.now (size * size)
        × (length out.old ≡ size * r) }
    ensures { out.new ≡ tabulate (size * r)
        (column_digit positions.now size r (λ k. get_or odd.now k 0) (λ k. get_or even.now k 0)) }
{
    let mut columns = [0u32; 512];
    words_blocks::column_sums(odd, even, positions, &mut columns[0..size]);
    encoder_solution::p_bits(&columns[0..size], size, r, out);
}

// Makes Q and P of the group that i groups of the frame precede in the lent `out`, as they would be for Y = 0, Q first. Lent to read are the frame's
// information and the table of the powers of x that the positions of a word carry. 4 × size² steps for the blocks.
pub fn start_group(
    info: &[u8],
    sizes: Sizes,
    i: usize,
    columns: &[u32],
    positions: &[u32],
    out: &mut [u8],
)
    requires { FrameReady sizes.blocks sizes.size sizes.r info.now columns.now positions.now × (i < groups sizes.blocks)
        × (length out.old ≡ 2 * (sizes.size * sizes.r)) }
    ensures { out.new ≡ start_from columns.now positions.now sizes.size sizes.r sizes.blocks info.now i }
{
    let size = sizes.size;
    let blocks = sizes.blocks;
    let n = size * sizes.r;
    let area = size * size;
    let before = words_blocks::block_of(info, area, blocks, 2 * i);
    let odd = words_blocks::block_of(info, area, blocks, 2 * i + 1);
    let even = words_blocks::block_of(info, area, blocks, 2 * i + 2);
    start_rows(before, odd, positions, size, sizes.r, &mut out[0..n]);
    start_columns(odd, even, columns, size, sizes.r, &mut out[n..2 * n]);
}

// Makes Y and P of a group in the lent `out`, whose second half has P as it would be for Y = 0. Lent to read are the words of the solutions, of which bit
// g is the group's, and the powers of x that the bits of Y carry. A few steps for each bit of Y.
pub fn finish_group(words: &[u64], g: usize, part: &[u32], size: usize, r: usize, out: &mut [u8])
    requires { (length words.now ≡ size * r) × (g < 64) × (length part.now ≡ r) × (length out.old ≡ 2 * (size * r)) × Bits out.old
        × (0 < size) × (size ≤ 512) × (0 < r) × (r ≤ 32) × (size * r ≤ most-order) }
    ensures { out.new ≡ finished_of words.now g part.now size r out.old }
{
    let n = size * r;
    let mut columns = [0u32; 512];
    let mut bits = [0u8; 4096];
    encoder_solution::y_bits(words, g, &mut out[0..n]);
    bch_remainders::add_rows(&mut columns[0..size], &out[0..n], part);
    encoder_solution::p_bits(&columns[0..size], size, r, &mut bits[0..n]);
    encoder_solution::add_bits(&bits[0..n], &mut out[n..2 * n]);
}
