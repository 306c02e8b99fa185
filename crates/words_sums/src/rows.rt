// Sums over the rows of a block: packed bytes are turned, eight by eight, so that a byte has eight bits of one row and names the sum of eight entries.
ghost use Rattle.std.specs.Prelude.{◌≡◌, ℕ, ◌+◌, ◌*◌, ◌/◌, ◌≤◌, ◌<◌, length, get_or};
ghost use Rattle.bch.specs.Polynomial.{◌⊕◌, Bits};
ghost use Rattle.bch.specs.Powers.{xor_sum};
ghost use Rattle.words_tables.specs.Tables.{Sums};

// The sum of the tables' entries that byte i of each tile names, a table for each tile.
fn tile_sum(turned: &[u8], i: usize, count: usize, tables: &[u32]) -> u32
    requires { (i < 8) × (8 * count ≤ length turned.now) × (256 * count ≤ length tables.now) }
    ensures { result ≡ xor_sum count (λ c. get_or tables.now (256 * c + get_or turned.now (8 * c + i) 0) 0) }
{
    let mut x: u32 = 0;
    for c in 0..count {
        let at = 256 * c;
        x ^= crate::entry(&tables[at..at + 256], turned[8 * c + i]);
    }
    x
}

// Adds to each of at most eight entries the sum that its bytes of the tiles name.
fn add_tiles(acc: &mut [u32], turned: &[u8], count: usize, tables: &[u32])
    requires { (length acc.old ≤ 8) × (8 * count ≤ length turned.now) × (256 * count ≤ length tables.now) }
    ensures { (length acc.new ≡ length acc.old)
        × ((i : ℕ) → i < length acc.old → get_or acc.new i 0 ≡ get_or acc.old i 0
        ⊕ xor_sum count (λ c. get_or tables.now (256 * c + get_or turned.now (8 * c + i) 0) 0)) }
{
    for (i, sum) in acc.iter_mut().enumerate() {
        *sum ^= tile_sum(turned, i, count, tables);
    }
}

// `add_rows` with working bytes lent, any: a multiple of eight that has one for each column, for the packed bytes and for the turned ones. What those behind
// the last column hold names entries that count as 0.
fn add_rows_in(
    acc: &mut [u32],
    block: &[u8],
    part: &[u32],
    tables: &[u32],
    packed: &mut [u8],
    turned: &mut [u8],
) -> usize
    requires { (length block.now ≡ length acc.old * length part.now) × Bits block.now × Sums part.now tables.now
        × (length packed.old ≡ 8 * ((length part.now + 7) / 8)) × (length turned.old ≡ 8 * ((length part.now + 7) / 8)) }
    ensures { (length acc.new ≡ length acc.old)
        × ((a : ℕ) → a < length acc.old → get_or acc.new a 0 ≡ get_or acc.old a 0
        ⊕ xor_sum (length part.now) (λ j. get_or block.now (a * length part.now + j) 0 * get_or part.now j 0))
        × ((a : ℕ) → a < length acc.old → result ≡ length part.now) × (result ≤ length part.now) }
{
    let w = part.len();
    let count = (w + 7) / 8;
    let groups = (acc.len() + 7) / 8;
    let mut reads: usize = 0;
    for g in 0..groups {
        let rows = (acc.len() - 8 * g).min(8);
        let first = 8 * g;
        let from = first * w;
        reads = words_packed::pack(&block[from..from + rows * w], rows, &mut packed[0..w]);
        matrix::turn(packed, count, turned);
        add_tiles(&mut acc[first..first + rows], turned, count, tables);
    }
    reads
}

// Adds to each of the lent entries of `acc` the entries of `part` at the ones of its row of `block`. The block has a row for each entry of `acc`, one after
// the other, and a column for each entry of `part`. The tables are those of `part`. Answers how many bits of each row it has read. One step for each bit, and
// one look for each eight.
pub fn add_rows(acc: &mut [u32], block: &[u8], part: &[u32], tables: &[u32]) -> usize
    requires { (length block.now ≡ length acc.old * length part.now) × Bits block.now × Sums part.now tables.now }
    ensures { (length acc.new ≡ length acc.old)
        × ((a : ℕ) → a < length acc.old → get_or acc.new a 0 ≡ get_or acc.old a 0
        ⊕ xor_sum (length part.now) (λ j. get_or block.now (a * length part.now + j) 0 * get_or part.now j 0))
        × ((a : ℕ) → a < length acc.old → result ≡ length part.now) × (result ≤ length part.now) }
{
    let bytes = (part.len() + 7) / 8 * 8;
    let mut packed = [0u8; 512];
    let mut turned = [0u8; 512];
    add_rows_in(
        acc,
        block,
        part,
        tables,
        &mut packed[0..bytes],
        &mut turned[0..bytes],
    )
}
