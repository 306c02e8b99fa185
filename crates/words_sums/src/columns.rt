// Sums over the columns of a block: the packed byte of a column names the sum of eight entries.
ghost use Rattle.std.specs.Prelude.{◌≡◌, ℕ, ◌+◌, ◌*◌, ◌/◌, ◌≤◌, ◌<◌, length, get_or};
ghost use Rattle.bch.specs.Polynomial.{◌⊕◌, Bits};
ghost use Rattle.bch.specs.Powers.{xor_sum};
ghost use Rattle.words_tables.specs.Tables.{Sums};

// Adds to each entry of `acc` the entry of the table that its byte names.
fn look_up(acc: &mut [u32], packed: &[u8], table: &[u32])
    requires { (length packed.now ≡ length acc.old) × (length table.now ≡ 256) }
    ensures { (length acc.new ≡ length acc.old)
        × ((a : ℕ) → a < length acc.old → get_or acc.new a 0 ≡ get_or acc.old a 0 ⊕ get_or table.now (get_or packed.now a 0) 0) }
{
    for (a, sum) in acc.iter_mut().enumerate() {
        *sum ^= crate::entry(table, packed[a]);
    }
}

// `add_columns` with working bytes lent, one for each column.
fn add_columns_in(
    acc: &mut [u32],
    block: &[u8],
    part: &[u32],
    tables: &[u32],
    packed: &mut [u8],
) -> usize
    requires { (length block.now ≡ length part.now * length acc.old) × Bits block.now × Sums part.now tables.now
        × (length packed.old ≡ length acc.old) }
    ensures { (length acc.new ≡ length acc.old)
        × ((a : ℕ) → a < length acc.old → get_or acc.new a 0 ≡ get_or acc.old a 0
        ⊕ xor_sum (length part.now) (λ j. get_or block.now (j * length acc.old + a) 0 * get_or part.now j 0))
        × (result ≡ length part.now) }
{
    let w = acc.len();
    let groups = (part.len() + 7) / 8;
    let mut reads: usize = 0;
    for g in 0..groups {
        let count = (part.len() - 8 * g).min(8);
        let from = 8 * g * w;
        let at = 256 * g;
        words_packed::pack(&block[from..from + count * w], count, packed);
        look_up(acc, packed, &tables[at..at + 256]);
        reads += count;
    }
    reads
}

// Adds to each of the lent entries of `acc` the entries of `part` at the ones of its column of `block`. The block has a row for each entry of `part`, one
// after the other, and a column for each entry of `acc`, at most 512. The tables are those of `part`. Answers how many bits of each column it has read, one
// for each row. One step for each bit, and one look for each eight.
pub fn add_columns(acc: &mut [u32], block: &[u8], part: &[u32], tables: &[u32]) -> usize
    requires { (length block.now ≡ length part.now * length acc.old) × Bits block.now × Sums part.now tables.now × (length acc.old ≤ 512) }
    ensures { (length acc.new ≡ length acc.old)
        × ((a : ℕ) → a < length acc.old → get_or acc.new a 0 ≡ get_or acc.old a 0
        ⊕ xor_sum (length part.now) (λ j. get_or block.now (j * length acc.old + a) 0 * get_or part.now j 0))
        × (result ≡ length part.now) }
{
    let w = acc.len();
    let mut packed = [0u8; 512];
    add_columns_in(acc, block, part, tables, &mut packed[0..w])
}
