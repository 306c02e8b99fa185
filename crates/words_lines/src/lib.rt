// The words of a frame of any kind as it is received: their remainders, and how many are outside the code.
//   line_remainders   the remainders of all words of a line, and how many bits of each word were read
//   turn_tables       the tables for words that are read backwards, from those for words that are not
//   count_nonzero     how many of some remainders are not 0
//   sum_entries       working entries for the remainders of a line
//   count_outside     how many words of a frame are outside the code
//
// The remainder of a word is a sum of entries of a table of powers of x, one for each of its ones (crate `bch_remainders`), and a word is in the code
// where its remainder is 0. All words of a line are summed at once, part by part: the two blocks (crate `words_blocks`), then, in feed-forward frames, X and
// Q or Y and P. Y and P stand in the redundancy row by row, a row for each position and a column for each word. X and Q have the same form: byte b × M + a is
// row a, column b, and is read in Y or P where the list sends it. Original frames lend no lists and no redundancy. Nothing of the frame is changed or copied.
//
// In a frame of many bits eight of a word's bits are summed at once, by tables of the sums of eight powers (crates `words_tables`, `words_sums`), which are
// made once a call; in others they are summed bit by bit. Words that are read backwards have the table of powers from its other end. Their lines are taken in
// a second pass, for which the tables are made again; where there are none, all lines are taken in the first.
//
// Each sent bit of a word is read once for its remainder and no other bit is. The reads are counted in the loops that make them: once a bit in
// `bch_remainders::dot`, once a row in `bch_remainders::read_rows` and in `add_listed_rows`, where a row has one bit of each word, and in those of
// `words_packed` and `words_sums`.
#![tactic(auto)]

ghost use Rattle.std.specs.Prelude.{◌≡◌, true, false, ℕ, ◌+◌, ◌*◌, ◌/◌, ◌≤◌, ◌<◌, length, get_or};
ghost use Rattle.bch.specs.Polynomial.{◌⊕◌, Bits};
ghost use Rattle.bch.specs.Powers.{xor_sum};
ghost use Rattle.staircase.specs.Lists.{tabulate, concat};
ghost use Rattle.staircase.specs.Frame.{outside_among, frame_of};
ghost use Rattle.staircase.specs.Rules.{entries};
ghost use Rattle.design.specs.Sizes.{params_of, lists_of};
ghost use Rattle.layout.specs.declared.Shape.TheVariants.{FeedForward};
ghost use Rattle.layout.specs.Layouts.{lines_in, bits_in, tail_in, turned_in, AllowedIn};
ghost use Rattle.words_tables.specs.Tables.{MaySum, MayHalves, MayParts, part_of, table_length};
ghost use Rattle.words_blocks.specs.Blocks.{block_bytes, block_reads};
ghost use Rattle.words_sums.specs.Listed.{Sends, listed_bit};
ghost use Rattle.words_lines.specs.Words.{nonzeros, layout_with, line_remainders, frame_sites, pass_sites, reads_in, entry_at, red_place, EndsLent, EndsAdded, line_blocks, tail_sum, ReadTable, TailLent, FramesLent, BlocksLent, GroupLent};

use layout::{Frames, Line, Pass, PassLine, Shape};

// Makes `sums` the remainders of the two blocks of a line's words. Answers how many bits of each word it has read.
fn line_blocks(
    line: Line,
    info: &[u8],
    positions: &[u32],
    tables: &[u32],
    sums: &mut [u32],
) -> usize
    requires { BlocksLent line.frames line.k (length sums.old) info.now positions.now × MayHalves positions.now (length sums.old) tables.now }
    ensures { (sums.new ≡ tabulate (length sums.old)
        (line_blocks line.frames.shape positions.now (length sums.old) line.frames.blocks info.now line.k))
        × (result ≡ block_reads (block_bytes line.frames.blocks (length sums.old * length sums.old) info.now line.k) (length sums.old)
        + block_reads (block_bytes line.frames.blocks (length sums.old * length sums.old) info.now (line.k + 1)) (length sums.old)) }
{
    let area = sums.len() * sums.len();
    let blocks = line.frames.blocks;
    let first = words_blocks::block_of(info, area, blocks, line.k);
    let second = words_blocks::block_of(info, area, blocks, line.k + 1);
    let rows = layout::rows_first(line);
    let rows_next = layout::rows_second(line);
    words_blocks::block_sums(first, second, !rows, !rows_next, positions, tables, sums)
}

// Adds x to each of `sums` at the ones of a row of X or of Q: bit a of it is the byte of `bits` to which the list sends place p + a. One step for each sum.
fn add_listed_row(sums: &mut [u32], list: &[u8], p: usize, bits: &[u8], x: u32)
    requires { (2 * (p + length sums.old) ≤ length list.now) × Bits bits.now
        × ((a : ℕ) → a < length sums.old → entry_at list.now (p + a) < length bits.now) }
    ensures { (length sums.new ≡ length sums.old)
        × ((a : ℕ) → a < length sums.old → get_or sums.new a 0
        ≡ get_or sums.old a 0 ⊕ get_or bits.now (entry_at list.now (p + a)) 0 * x) }
{
    for (a, sum) in sums.iter_mut().enumerate() {
        let e = rules::entry(list, p + a);
        *sum ^= bch_remainders::masked(bits[e], x);
    }
}

// Adds to each of `sums` the entries of `part` at the ones of its column of X, which the self list makes of Y's bytes, or of Q, by the parity list from P's:
// row by row. Answers how many bits it has read for each sum, one for each row.
fn add_listed_rows(sums: &mut [u32], list: &[u8], bits: &[u8], part: &[u32]) -> usize
    requires { Sends list.now (length bits.now) × (length bits.now ≡ length part.now * length sums.old) × Bits bits.now }
    ensures { (length sums.new ≡ length sums.old)
        × ((a : ℕ) → a < length sums.old → get_or sums.new a 0 ≡ get_or sums.old a 0
        ⊕ xor_sum (length part.now) (λ j. listed_bit list.now bits.now (j * length sums.old + a) * get_or part.now j 0))
        × (result ≡ length part.now) }
{
    let w = sums.len();
    let mut reads: usize = 0;
    for (j, &power) in part.iter().enumerate() {
        add_listed_row(sums, list, j * w, bits, power);
        reads += 1;
    }
    reads
}

// The same, eight rows at a time where there are tables of sums of `part`.
fn add_listed(sums: &mut [u32], list: &[u8], bits: &[u8], part: &[u32], tables: &[u32]) -> usize
    requires { Sends list.now (length bits.now) × (length bits.now ≡ length part.now * length sums.old) × Bits bits.now × MaySum part.now tables.now }
    ensures { (length sums.new ≡ length sums.old)
        × ((a : ℕ) → a < length sums.old → get_or sums.new a 0 ≡ get_or sums.old a 0
        ⊕ xor_sum (length part.now) (λ j. listed_bit list.now bits.now (j * length sums.old + a) * get_or part.now j 0))
        × (result ≡ length part.now) }
{
    if tables.len() == 0 {
        return add_listed_rows(sums, list, bits, part);
    }
    words_sums::add_listed(sums, list, bits, part, tables)
}

// Adds what a stretch of the redundancy gives to the remainders of a line's words: X or Q by its list for row words, Y or P as it stands for column
// words. Answers how many bits of each word it has read.
fn add_stretch(
    sums: &mut [u32],
    rows: bool,
    list: &[u8],
    bits: &[u8],
    part: &[u32],
    tables: &[u32],
) -> usize
    requires { Sends list.now (length bits.now) × (length bits.now ≡ length part.now * length sums.old) × Bits bits.now × (length sums.old ≤ 512)
        × MaySum part.now tables.now }
    ensures { (length sums.new ≡ length sums.old)
        × ((a : ℕ) → a < length sums.old → get_or sums.new a 0 ≡ get_or sums.old a 0
        ⊕ xor_sum (length part.now)
        (λ j. get_or bits.now (red_place rows (entries (length bits.now) list.now) (j * length sums.old + a)) 0
        * get_or part.now j 0))
        × (result ≡ length part.now) }
{
    if rows {
        return add_listed(sums, list, bits, part, tables);
    }
    words_blocks::add_columns(sums, bits, part, tables)
}

// Adds what a group's redundancy gives to the remainders of a line's words: X and Q by their lists for row words, Y and P as they stand for column words.
// `bits` are Y and P, `part` the powers of x that the redundancy of a word carries, and the tables those of their sums, or none: of each a half is for X or
// Y, and a half for Q or P. Answers how many bits of each word it has read.
fn add_ends(
    rows: bool,
    own: &[u8],
    parity: &[u8],
    bits: &[u8],
    part: &[u32],
    tables: &[u32],
    sums: &mut [u32],
) -> usize
    requires { EndsLent own.now parity.now bits.now part.now tables.now (length sums.old) }
    ensures { EndsAdded rows own.now parity.now bits.now part.now sums.old sums.new
        × (result ≡ 2 * (length part.now / 2)) }
{
    let n = bits.len() / 2;
    let r = part.len() / 2;
    let h = tables.len() / 2;
    let first = add_stretch(sums, rows, own, &bits[0..n], &part[0..r], &tables[0..h]);
    let second = add_stretch(
        sums,
        rows,
        parity,
        &bits[n..2 * n],
        &part[r..2 * r],
        &tables[h..2 * h],
    );
    first + second
}

// Adds the redundancy of a feed-forward line's group to the remainders of its words, as `add_tail` does.
fn add_group(
    line: Line,
    own: &[u8],
    parity: &[u8],
    red: &[u8],
    positions: &[u32],
    tables: &[u32],
    sums: &mut [u32],
) -> usize
    requires { GroupLent line own.now parity.now red.now positions.now tables.now (length sums.old) }
    ensures { (length sums.new ≡ length sums.old)
        × ((a : ℕ) → a < length sums.old → get_or sums.new a 0 ≡ get_or sums.old a 0
        ⊕ tail_sum FeedForward (params_of line.frames.d) (lists_of line.frames.d own.now parity.now) red.now
        positions.now line.k a)
        × (result ≡ 2 * (line.frames.d.m * line.frames.d.t)) }
{
    let d = line.frames.d;
    let r = d.r();
    let n = 2 * d.order();
    let y = line.k / 2 * n;
    let x = 2 * d.size();
    let rows = line.k % 2 == 0;
    add_ends(
        rows,
        own,
        parity,
        &red[y..y + n],
        &positions[x..x + 2 * r],
        tables,
        sums,
    )
}

// Adds what is behind the blocks to the remainders of a line's words: in feed-forward frames the redundancy of their group. The tables are those of the powers
// of its two stretches, or none. Answers how many bits of each word it has read.
fn add_tail(
    line: Line,
    own: &[u8],
    parity: &[u8],
    red: &[u8],
    positions: &[u32],
    tables: &[u32],
    sums: &mut [u32],
) -> usize
    requires { TailLent line.frames own.now parity.now red.now × (line.k < lines_in line.frames.shape line.frames.blocks)
        × (length positions.now ≡ bits_in line.frames.shape (params_of line.frames.d)) × (length sums.old ≡ line.frames.d.size)
        × MayHalves (part_of positions.now (2 * line.frames.d.size) (2 * tail_in line.frames.shape (params_of line.frames.d)))
        (tail_in line.frames.shape (params_of line.frames.d)) tables.now }
    ensures { (length sums.new ≡ length sums.old)
        × ((a : ℕ) → a < length sums.old → get_or sums.new a 0 ≡ get_or sums.old a 0
        ⊕ tail_sum line.frames.shape (params_of line.frames.d) (lists_of line.frames.d own.now parity.now) red.now
        positions.now line.k a)
        × (result ≡ 2 * tail_in line.frames.shape (params_of line.frames.d)) }
{
    let frames = line.frames;
    let shape = frames.shape;
    match shape {
        Shape::FeedForward => add_group(line, own, parity, red, positions, tables, sums),
        Shape::Original => 0,
    }
}

// Makes `sums` the remainders of the words of a line, as they are read. The table is that of words which are read as those of the line are, and the tables are
// those of the powers that the parts of such words carry, or none. Answers how many bits of each word it has read, which is how many of them are sent. One
// step for each of these bits, or for each eight by the tables.
pub fn line_remainders(
    line: Line,
    own: &[u8],
    parity: &[u8],
    info: &[u8],
    red: &[u8],
    positions: &[u32],
    tables: &[u32],
    sums: &mut [u32],
) -> usize
    requires { FramesLent line.frames own.now parity.now info.now red.now × (line.k < lines_in line.frames.shape line.frames.blocks)
        × ReadTable line.frames.shape (params_of line.frames.d) (turned_in line.frames.shape (params_of line.frames.d) line.k) positions.now
        × (length sums.old ≡ line.frames.d.size)
        × MayParts positions.now line.frames.d.size (tail_in line.frames.shape (params_of line.frames.d)) tables.now }
    ensures { (sums.new
        ≡ line_remainders (layout_with line.frames own.now parity.now) (frame_of info.now red.now) line.k)
        × (result ≡ reads_in line.frames.shape (params_of line.frames.d) line.frames.blocks line.k) }
{
    let size = line.frames.d.size();
    let tail = layout::tail_bits(line.frames);
    let b = 2 * words_tables::table_length(size);
    let e = 2 * words_tables::table_length(tail);
    let halves = words_tables::part(tables, 0, b);
    let ends = words_tables::part(tables, b, e);
    let blocks = line_blocks(line, info, positions, halves, sums);
    let behind = add_tail(line, own, parity, red, positions, ends, sums);
    blocks + behind
}

// How many of the lent entries are not 0. One step for each entry.
pub fn count_nonzero(list: &[u32]) -> u64
    ensures { (result ≡ nonzeros list.now) × (result ≤ length list.now) }
{
    let mut n: u64 = 0;
    for &x in list {
        n += u64::from(x != 0);
    }
    n
}

// Working entries for the remainders of a line; only their number is told: the most that a line has, or more.
pub fn sum_entries() -> [u32; 512]
    ensures { 512 ≡ length result }
{
    [0; 512]
}

// How many words of a line are outside the code, if the pass takes it, else 0.
fn count_line(
    at: PassLine,
    own: &[u8],
    parity: &[u8],
    info: &[u8],
    red: &[u8],
    positions: &[u32],
    tables: &[u32],
) -> u64
    requires { FramesLent at.pass.frames own.now parity.now info.now red.now × (at.k < lines_in at.pass.frames.shape at.pass.frames.blocks)
        × ReadTable at.pass.frames.shape (params_of at.pass.frames.d) at.pass.back positions.now
        × MayParts positions.now at.pass.frames.d.size (tail_in at.pass.frames.shape (params_of at.pass.frames.d)) tables.now }
    ensures { (result ≡ outside_among (params_of at.pass.frames.d) (frame_of info.now red.now)
        (pass_sites at.pass.frames.shape (layout_with at.pass.frames own.now parity.now) at.pass.back at.k)) × (result ≤ 500) }
{
    if !layout::taken(at) {
        return 0;
    }
    let line = layout::line_at(at.pass.frames, at.k);
    let size = at.pass.frames.d.size();
    let mut sums = sum_entries();
    line_remainders(
        line,
        own,
        parity,
        info,
        red,
        positions,
        tables,
        &mut sums[0..size],
    );
    count_nonzero(&sums[0..size])
}

// How many words of the lines of a pass are outside the code.
fn count_pass(
    pass: Pass,
    own: &[u8],
    parity: &[u8],
    info: &[u8],
    red: &[u8],
    positions: &[u32],
    tables: &[u32],
) -> u64
    requires { FramesLent pass.frames own.now parity.now info.now red.now
        × ReadTable pass.frames.shape (params_of pass.frames.d) pass.back positions.now
        × MayParts positions.now pass.frames.d.size (tail_in pass.frames.shape (params_of pass.frames.d)) tables.now }
    ensures { (result ≡ outside_among (params_of pass.frames.d) (frame_of info.now red.now)
        (concat (lines_in pass.frames.shape pass.frames.blocks)
        (pass_sites pass.frames.shape (layout_with pass.frames own.now parity.now) pass.back))) × (result ≤ 2049000) }
{
    let lines = layout::line_count(pass.frames);
    let mut total: u64 = 0;
    for k in 0..lines {
        let at = PassLine { pass, k };
        total += count_line(at, own, parity, info, red, positions, tables);
    }
    total
}

// Makes the table of powers for words that are read backwards in `back`, from that for words that are not, and the tables of its sums, if there are any.
pub fn turn_tables(frames: Frames, positions: &[u32], back: &mut [u32], tables: &mut [u32])
    requires { AllowedIn frames.shape frames.d × ReadTable frames.shape (params_of frames.d) false positions.now
        × (length back.old ≡ length positions.now) × (0 < length tables.old → length tables.old
        ≡ 2 * table_length frames.d.size + 2 * table_length (tail_in frames.shape (params_of frames.d))) }
    ensures { ReadTable frames.shape (params_of frames.d) true back.new
        × MayParts back.new frames.d.size (tail_in frames.shape (params_of frames.d)) tables.new
        × (length back.new ≡ length back.old) × (length tables.new ≡ length tables.old) }
{
    bch_remainders::fill_backwards(positions, back);
    if tables.len() == 0 {
        return;
    }
    let size = frames.d.size();
    let tail = layout::tail_bits(frames);
    words_tables::fill_parts(back, size, tail, tables);
}

// How many words that are read backwards are outside the code, with the tables for words that are not.
fn count_back(
    frames: Frames,
    own: &[u8],
    parity: &[u8],
    info: &[u8],
    red: &[u8],
    positions: &[u32],
    tables: &mut [u32],
) -> u64
    requires { FramesLent frames own.now parity.now info.now red.now × ReadTable frames.shape (params_of frames.d) false positions.now
        × MayParts positions.now frames.d.size (tail_in frames.shape (params_of frames.d)) tables.old }
    ensures { (result ≡ outside_among (params_of frames.d) (frame_of info.now red.now)
        (concat (lines_in frames.shape frames.blocks) (pass_sites frames.shape (layout_with frames own.now parity.now) true))) × (result ≤ 2049000) }
{
    let n = positions.len();
    let pass = Pass { frames, back: true };
    let mut back = [0u32; 1024];
    turn_tables(frames, positions, &mut back[0..n], tables);
    count_pass(pass, own, parity, info, red, &back[0..n], tables)
}

// How many words of a frame are outside the code, with the tables for words that are read forwards.
fn count_both(
    frames: Frames,
    own: &[u8],
    parity: &[u8],
    info: &[u8],
    red: &[u8],
    positions: &[u32],
    tables: &mut [u32],
) -> u64
    requires { FramesLent frames own.now parity.now info.now red.now × ReadTable frames.shape (params_of frames.d) false positions.now
        × MayParts positions.now frames.d.size (tail_in frames.shape (params_of frames.d)) tables.old }
    ensures { result ≡ outside_among (params_of frames.d) (frame_of info.now red.now)
        (frame_sites (layout_with frames own.now parity.now)) }
{
    let pass = Pass {
        frames,
        back: false,
    };
    let ahead = count_pass(pass, own, parity, info, red, positions, tables);
    let turns = layout::turns(frames);
    if !turns {
        return ahead;
    }
    ahead + count_back(frames, own, parity, info, red, positions, tables)
}

// `count_filled` by tables of sums, which are to have `due` entries.
fn count_by_tables(
    frames: Frames,
    own: &[u8],
    parity: &[u8],
    info: &[u8],
    red: &[u8],
    positions: &[u32],
    due: usize,
) -> u64
    requires { FramesLent frames own.now parity.now info.now red.now × ReadTable frames.shape (params_of frames.d) false positions.now
        × (due ≤ 36864) × (due ≡ 2 * table_length frames.d.size + 2 * table_length (tail_in frames.shape (params_of frames.d))) }
    ensures { result ≡ outside_among (params_of frames.d) (frame_of info.now red.now)
        (frame_sites (layout_with frames own.now parity.now)) }
{
    let size = frames.d.size();
    let tail = layout::tail_bits(frames);
    let mut tables = words_tables::entries();
    words_tables::fill_parts(positions, size, tail, &mut tables[0..due]);
    count_both(
        frames,
        own,
        parity,
        info,
        red,
        positions,
        &mut tables[0..due],
    )
}

// `count_outside` with the table of powers, by tables of sums where they pay for themselves.
fn count_filled(
    frames: Frames,
    own: &[u8],
    parity: &[u8],
    info: &[u8],
    red: &[u8],
    positions: &[u32],
) -> u64
    requires { FramesLent frames own.now parity.now info.now red.now × ReadTable frames.shape (params_of frames.d) false positions.now }
    ensures { result ≡ outside_among (params_of frames.d) (frame_of info.now red.now)
        (frame_sites (layout_with frames own.now parity.now)) }
{
    let due = words_tables::parts_due(frames.blocks, frames.d.size(), layout::tail_bits(frames));
    if due == 0 {
        let mut none = [0u32; 0];
        return count_both(frames, own, parity, info, red, positions, &mut none);
    }
    count_by_tables(frames, own, parity, info, red, positions, due)
}

// How many words of a frame are outside the code. One step for each bit of the words, or for each eight by tables of sums.
pub fn count_outside(frames: Frames, own: &[u8], parity: &[u8], info: &[u8], red: &[u8]) -> u64
    requires { FramesLent frames own.now parity.now info.now red.now }
    ensures { result ≡ outside_among (params_of frames.d) (frame_of info.now red.now)
        (frame_sites (layout_with frames own.now parity.now)) }
{
    let bits = layout::word_bits(frames);
    let m = frames.d.m();
    let t = frames.d.t();
    let mut positions = [0u32; 1024];
    words_positions::fill_code(m, t, &mut positions[0..bits]);
    count_filled(frames, own, parity, info, red, &positions[0..bits])
}
