// Tables of the sums of eight entries of a list, by exclusive or.
//   fill_tables(part, tables)             the tables of a list of powers of x
//   halves_length(size)                   how long the tables of two lists of `size` entries are
//   fill_halves(positions, size, tables)  those of the powers that the two blocks of a word carry
//   part(tables, from, n)                 some of the tables, or none where there are none
//   parts_due(blocks, size, r), fill_parts(positions, size, r, tables)   the same for all four parts of a word: two blocks, two stretches of redundancy
//   tables_due(blocks, size)              how long they are to be for a frame, 0 where they do not pay
//
// A byte that holds eight bits of a word names the sum of their powers in a table of 256 (V. Arlazarov, E. Dinic, M. Kronrod, I. Faradzhev, 1970), so that a
// remainder is one look for each eight bits. A table is made by doubling, each entry after the first giving as many sums more as there are. A list whose
// length is not a multiple of eight counts as ending in zeros.
#![tactic(auto)]

ghost use Rattle.std.specs.Prelude.{◌≡◌, ℕ, ◌+◌, ◌*◌, ◌/◌, ◌≤◌, ◌<◌, length, get_or};
ghost use Rattle.bch.specs.Polynomial.{◌⊕◌};
ghost use Rattle.words_tables.specs.Tables.{sum_at, Sums, MayHalves, MayParts, table_length, part_of};

// Doubles a table of w sums: entry w + v is entry v plus x.
fn double(table: &mut [u32], w: usize, x: u32)
    requires { 2 * w ≤ length table.old }
    ensures { (length table.new ≡ length table.old)
        × ((v : ℕ) → v < w → get_or table.new v 0 ≡ get_or table.old v 0)
        × ((v : ℕ) → v < w → get_or table.new (w + v) 0 ≡ get_or table.old v 0 ⊕ x) }
{
    let (sums, more) = table.split_at_mut(w);
    for (v, &sum) in sums.iter().enumerate() {
        more[v] = sum ^ x;
    }
}

// Entry k of a list, 0 behind its last.
fn entry_at(part: &[u32], k: usize) -> u32
    ensures { result ≡ get_or part.now k 0 }
{
    part.get(k).copied().unwrap_or(0)
}

// Makes the table of the sums of the eight entries from entry `from` on: entry v adds those at the ones of v, the first for the lowest.
fn fill_table(part: &[u32], from: usize, table: &mut [u32])
    requires { (length table.old ≡ 256) × (from ≤ 4096) }
    ensures { (length table.new ≡ length table.old)
        × ((v : ℕ) → v < 256 → get_or table.new v 0 ≡ sum_at (λ i. get_or part.now (from + i) 0) 8 v) }
{
    table[0] = 0;
    let mut w: usize = 1;
    for i in 0..EIGHT {
        double(table, w, entry_at(part, from + i));
        w *= 2;
    }
}

const EIGHT: usize = 8;

// Makes the tables of a list of at most 512 entries, one after the other. 256 steps for each eight entries.
pub fn fill_tables(part: &[u32], tables: &mut [u32])
    requires { (length part.now ≤ 512) × (length tables.old ≡ 256 * ((length part.now + 7) / 8)) }
    ensures { Sums part.now tables.new }
{
    let n = (part.len() + 7) / 8;
    for j in 0..n {
        let to = 256 * j;
        fill_table(part, 8 * j, &mut tables[to..to + 256]);
    }
}

// How long the tables of two lists of `size` entries are.
pub fn halves_length(size: usize) -> usize
    requires { size ≤ 512 }
    ensures { (result ≡ 2 * (256 * ((size + 7) / 8))) × (result ≤ 32768) }
{
    2 * (256 * ((size + 7) / 8))
}

// Makes the tables of the first `size` entries of a table of powers of x, and behind them those of the next `size`.
pub fn fill_halves(positions: &[u32], size: usize, tables: &mut [u32])
    requires { (size ≤ 512) × (2 * size ≤ length positions.now) × (length tables.old ≡ 2 * (256 * ((size + 7) / 8))) }
    ensures { MayHalves positions.now size tables.new × (length tables.new ≡ length tables.old) }
{
    let h = tables.len() / 2;
    fill_tables(&positions[0..size], &mut tables[0..h]);
    fill_tables(&positions[size..2 * size], &mut tables[h..2 * h]);
}

// Where the tables pay for themselves: how long they are for a frame of `blocks` blocks, or 0 where its blocks have too few bits.
pub fn tables_due(blocks: usize, size: usize) -> usize
    requires { (size ≤ 512) × (blocks ≤ 4096) }
    ensures { (result ≤ 32768) × (0 < result → result ≡ 2 * (256 * ((size + 7) / 8))) }
{
    if blocks * size * size < 65536 {
        return 0;
    }
    halves_length(size)
}

// Working entries for the tables; only their number is told: the most that any design has.
pub fn entries() -> [u32; 36864]
    ensures { 36864 ≡ length result }
{
    [0; 36864]
}

// How long the tables of a list of n entries are.
pub fn table_length(n: usize) -> usize
    requires { n ≤ 512 }
    ensures { (result ≡ table_length n) × (result ≤ 16384) }
{
    256 * ((n + 7) / 8)
}

// n entries of the tables from entry `from` on, or none where there are no tables.
pub fn part(tables: &[u32], from: usize, n: usize) -> &[u32]
    requires { 0 < length tables.now → from + n ≤ length tables.now }
    ensures { result.now ≡ part_of tables.now from n }
{
    if tables.len() == 0 {
        return &tables[0..0];
    }
    &tables[from..from + n]
}

// As `tables_due`, for all four parts of a word, whose redundancy has two stretches of r bits.
pub fn parts_due(blocks: usize, size: usize, r: usize) -> usize
    requires { (size ≤ 500) × (r ≤ 32) × (blocks ≤ 4096) }
    ensures { (result ≤ 36864) × (0 < result → result ≡ 2 * table_length size + 2 * table_length r) }
{
    let halves = tables_due(blocks, size);
    if halves == 0 {
        return 0;
    }
    halves + 2 * table_length(r)
}

// Makes the tables of the four parts of a word's positions, one after the other.
pub fn fill_parts(positions: &[u32], size: usize, r: usize, tables: &mut [u32])
    requires { (size ≤ 500) × (r ≤ 32) × (length positions.now ≡ 2 * size + 2 * r) × (length tables.old ≡ 2 * table_length size + 2 * table_length r) }
    ensures { MayParts positions.now size r tables.new × (length tables.new ≡ length tables.old) }
{
    let b = 2 * table_length(size);
    let e = 2 * table_length(r);
    let x = 2 * size;
    fill_halves(positions, size, &mut tables[0..b]);
    fill_halves(&positions[x..x + 2 * r], r, &mut tables[b..b + e]);
}
