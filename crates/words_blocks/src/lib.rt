// The blocks of a frame as parts of the lent information, and the remainders of the blocks of a group's words.
//   is_sent(blocks, b)        whether block b of a frame is sent
//   block_of(info, ..)        its bytes
//   add_columns               sums over the columns of some rows, added, and how many bits were read for each
//   add_block                 the sums of a block's columns or rows, added, and how many bits were read for each
//   block_sums                the remainders of the two blocks of a line's words, and how many bits of each word were read
//   column_sums, row_sums     the same for a group's column words and row words, without the number
//
// The remainder of a word is a sum of entries of a table of powers of x, one for each of its ones (crate `bch_remainders`), and a word's blocks are
// its first 2 × size positions. Words that have columns of a block run across its rows and are added row by row, words that have rows lie in a row each;
// a block that is not sent is an empty slice, and adds nothing. Whoever lends tables of the sums of eight entries has eight bits added at once (crate `words_sums`). The bits that are
// read of a word are counted where they are read, in the loops of `bch_remainders`, `words_packed` and `words_sums`.
#![tactic(auto)]

ghost use Rattle.std.specs.Prelude.{◌≡◌, ℕ, ◌+◌, ◌*◌, ◌≤◌, ◌<◌, length, get_or};
ghost use Rattle.bch.specs.Polynomial.{◌⊕◌, Bits};
ghost use Rattle.bch.specs.Powers.{xor_sum};
ghost use Rattle.staircase.specs.Lists.{tabulate};
ghost use Rattle.words_tables.specs.Tables.{MaySum, MayHalves, part_of};
ghost use Rattle.words_blocks.specs.Blocks.{sent, block_bytes, BlockLent, block_reads, column_sum, row_sum, bit_place, block_sum, PartAdded};

// Whether block b of a frame of `blocks` blocks is sent.
fn is_sent(blocks: usize, b: usize) -> bool
    ensures { result ≡ sent blocks b }
{
    if b < 1 {
        return false;
    }
    b - 1 < blocks
}

// The bytes of block b, none where it is not sent.
pub fn block_of(info: &[u8], area: usize, blocks: usize, b: usize) -> &[u8]
    requires { length info.now ≡ blocks * area }
    ensures { result.now ≡ block_bytes blocks area info.now b }
{
    let here = is_sent(blocks, b);
    if !here {
        return &info[0..0];
    }
    let at = (b - 1) * area;
    &info[at..at + area]
}

// Adds to each of the lent entries of `acc` the entries of `part` at the ones of its row of `block`. The block has a row for each entry of `acc`,
// one after the other, and a column for each entry of `part`. Answers how many bits of each row it has read. One step for each bit of the block.
fn add_dots(acc: &mut [u32], block: &[u8], part: &[u32]) -> usize
    requires { (length block.now ≡ length acc.old * length part.now) × Bits block.now }
    ensures { (length acc.new ≡ length acc.old)
        × ((a : ℕ) → a < length acc.old → get_or acc.new a 0 ≡ get_or acc.old a 0
        ⊕ xor_sum (length part.now) (λ j. get_or block.now (a * length part.now + j) 0 * get_or part.now j 0))
        × ((a : ℕ) → a < length acc.old → result ≡ length part.now) × (result ≤ length part.now) }
{
    let w = part.len();
    let mut reads: usize = 0;
    for (a, entry) in acc.iter_mut().enumerate() {
        let from = a * w;
        let row = bch_remainders::dot(&block[from..from + w], part);
        *entry ^= row.sum;
        reads = row.reads;
    }
    reads
}

// Adds to each of `sums` the entries of `part` at the ones of its column of a block: eight rows at a time where there are tables of sums of `part`, else
// row by row. Answers how many bits of each column it has read.
pub fn add_columns(sums: &mut [u32], block: &[u8], part: &[u32], tables: &[u32]) -> usize
    requires { (length block.now ≡ length part.now * length sums.old) × Bits block.now × (0 < length tables.now → length sums.old ≤ 512)
        × MaySum part.now tables.now }
    ensures { (length sums.new ≡ length sums.old)
        × ((a : ℕ) → a < length sums.old → get_or sums.new a 0 ≡ get_or sums.old a 0
        ⊕ xor_sum (length part.now) (λ j. get_or block.now (j * length sums.old + a) 0 * get_or part.now j 0))
        × (result ≡ length part.now) }
{
    if tables.len() == 0 {
        return bch_remainders::read_rows(sums, block, part);
    }
    words_sums::add_columns(sums, block, part, tables)
}

// The same for its row of the block.
fn add_rows(sums: &mut [u32], block: &[u8], part: &[u32], tables: &[u32]) -> usize
    requires { (length block.now ≡ length sums.old * length part.now) × Bits block.now × MaySum part.now tables.now }
    ensures { (length sums.new ≡ length sums.old)
        × ((a : ℕ) → a < length sums.old → get_or sums.new a 0 ≡ get_or sums.old a 0
        ⊕ xor_sum (length part.now) (λ j. get_or block.now (a * length part.now + j) 0 * get_or part.now j 0))
        × ((a : ℕ) → a < length sums.old → result ≡ length part.now) × (result ≤ length part.now) }
{
    if tables.len() == 0 {
        return add_dots(sums, block, part);
    }
    words_sums::add_rows(sums, block, part, tables)
}

// Adds to each of `sums` the entries of the table from entry `from` on, as many as there are sums, at the ones of its column of a block where
// `column` is true, else of its row. A block that is not sent is empty, and adds nothing. The tables are those of the sums of these entries, or none. Answers
// how many bits it has read for each sum.
pub fn add_block(
    sums: &mut [u32],
    block: &[u8],
    column: bool,
    positions: &[u32],
    from: usize,
    tables: &[u32],
) -> usize
    requires { BlockLent block.now (length sums.old * length sums.old) × (from + length sums.old ≤ length positions.now)
        × MaySum (part_of positions.now from (length sums.old)) tables.now }
    ensures { PartAdded positions.now from (length sums.old)
        (λ w a j. get_or block.now (bit_place column w a j) 0) sums.old sums.new
        × (result ≡ block_reads block.now (length sums.old)) }
{
    if block.len() == 0 {
        return 0;
    }
    let part = &positions[from..from + sums.len()];
    if column {
        return add_columns(sums, block, part, tables);
    }
    add_rows(sums, block, part, tables)
}

// Makes `sums` the remainders of the two blocks of a line's words, which have columns of a block where the flag beside it is true, else rows. A block that is
// not sent is empty. The tables are those of the powers that the two blocks carry, or none. Answers how many bits it has read for each word.
pub fn block_sums(
    first: &[u8],
    second: &[u8],
    first_columns: bool,
    second_columns: bool,
    positions: &[u32],
    tables: &[u32],
    sums: &mut [u32],
) -> usize
    requires { BlockLent first.now (length sums.old * length sums.old) × BlockLent second.now (length sums.old * length sums.old)
        × (2 * length sums.old ≤ length positions.now) × MayHalves positions.now (length sums.old) tables.now }
    ensures { (sums.new ≡ tabulate (length sums.old)
        (block_sum first_columns second_columns positions.now (length sums.old) (λ k. get_or first.now k 0) (λ k. get_or second.now k 0)))
        × (result ≡ block_reads first.now (length sums.old) + block_reads second.now (length sums.old)) }
{
    sums.fill(0);
    let half = tables.len() / 2;
    let ahead = &tables[0..half];
    let behind = &tables[half..2 * half];
    let one = add_block(sums, first, first_columns, positions, 0, ahead);
    let two = add_block(sums, second, second_columns, positions, sums.len(), behind);
    one + two
}

// Makes `columns` the remainders of the blocks of a group's column words.
pub fn column_sums(odd: &[u8], even: &[u8], positions: &[u32], columns: &mut [u32])
    requires { BlockLent odd.now (length columns.old * length columns.old) × BlockLent even.now (length columns.old * length columns.old)
        × (2 * length columns.old ≤ length positions.now) }
    ensures { columns.new ≡ tabulate (length columns.old)
        (column_sum positions.now (length columns.old) (λ k. get_or odd.now k 0) (λ k. get_or even.now k 0)) }
{
    let none = &positions[0..0];
    block_sums(odd, even, true, true, positions, none, columns);
}

// Makes `rows` the remainders of the blocks of a group's row words.
pub fn row_sums(before: &[u8], odd: &[u8], positions: &[u32], rows: &mut [u32])
    requires { BlockLent before.now (length rows.old * length rows.old) × BlockLent odd.now (length rows.old * length rows.old)
        × (2 * length rows.old ≤ length positions.now) }
    ensures { rows.new ≡ tabulate (length rows.old)
        (row_sum positions.now (length rows.old) (λ k. get_or before.now k 0) (λ k. get_or odd.now k 0)) }
{
    let none = &positions[0..0];
    block_sums(before, odd, false, false, positions, none, rows);
}
