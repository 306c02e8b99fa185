// Remainders of words by a generator, from a table of powers of x.
//   generator_of(m, t)                the generator of the code over field m that corrects t errors
//   mirror_of(g, r)                   the reversed polynomial of g, of degree r
//   fill_backwards(part, out)         the entries of a table from the last to the first
//   fill_positions(g, r, top, table)  entry j of the table is the power of x that position j of a word carries, modulo g
//   masked(b, x)                      x or 0, by a bit
//   dot(bits, part)                   the sum of the entries of `part` at the ones of `bits`, and how many bits it has read
//   read_rows(acc, block, part)       `dot` for every column of a block at once, row by row; how many bits of each column it has read
//   add_rows(acc, block, part)        the same without the number
//
// The remainder of a word is a sum of powers of x modulo the generator, one for each of its ones (`remainder-powers` of the crate `bch`).
// A polynomial is a number, bit i for x^i, and the sum is the exclusive or. So a table that is made once turns a remainder into a loop of
// exclusive ors, with no division, and parts of a word that stand in several buffers are added one after the other. The words that run
// across the rows of a block are added row by row, in the order in which the block stands in memory.
//
// The hot loops have no jump at a bit (`masked`). Reads of bits are counted where they are made: once a bit in `dot`, and once a row in `read_rows`,
// where each row gives every column one bit.
#![tactic(auto)]

ghost use Rattle.std.specs.Prelude.{◌≡◌, ℕ, ◌+◌, ◌-◌, ◌*◌, ◌/◌, ◌^◌, ◌≤◌, ◌<◌, length, get_or};
ghost use Rattle.bch.specs.Polynomial.{◌⊕◌, times_x, Bits};
ghost use Rattle.bch.specs.Code.{generator};
ghost use Rattle.bch.specs.Mirror.{mirror};
ghost use Rattle.bch.specs.Powers.{xor_sum, PositionPowers};

// A sum of entries, and how many bits were read for it.
#[derive(Clone, Copy)]
pub struct Reading {
    pub sum: u32,
    pub reads: usize,
}

// The generators for t = 1, 2, 3, of m = 4, then 5, .., 10. Three of them, for (4, 2), (4, 3) and (5, 3), belong to no design.
const GENERATORS: [u32; 21] = [
    0x13, 0x1d1, 0x537, 0x25, 0x769, 0x8faf, 0x43, 0x1539, 0x782cf, 0x89, 0x4377, 0x26d9e3, 0x11d,
    0x16f63, 0x1bba1b5, 0x211, 0x495c9, 0xd612b79, 0x409, 0x101877, 0x50a91113,
];

// The generator of the code over field m that corrects t errors, for every m and t that a design may have. One entry of a small table.
pub fn generator_of(m: usize, t: usize) -> u32
    requires { (4 ≤ m) × (m ≤ 10) × (1 ≤ t) × (t ≤ 3) × (2 * (m * t) + 2 < 2 ^ m) }
    ensures { (result ≡ generator m t) × (result < 2 ^ 31) }
{
    GENERATORS[3 * (m - 4) + (t - 1)]
}

// The reversed polynomial of g, of degree r: its r + 1 bits in the other order. One step for each bit.
pub fn mirror_of(g: u32, r: usize) -> u32
    requires { r ≤ 30 }
    ensures { result ≡ mirror r g }
{
    let mut a: u32 = 0;
    let mut p = g;
    let bits = r + 1;
    for i in 0..bits {
        a = a * 2 + p % 2;
        p = p / 2;
    }
    a
}

// Fills `out` with the entries of `table` from the last to the first. One step for each entry.
pub fn fill_backwards(table: &[u32], out: &mut [u32])
    requires { length out.old ≡ length table.now }
    ensures { (length out.new ≡ length table.now)
        × ((j : ℕ) → j < length table.now → get_or out.new j 0 ≡ get_or table.now (length table.now - 1 - j) 0) }
{
    let n = table.len();
    for (j, entry) in out.iter_mut().enumerate() {
        *entry = table[n - 1 - j];
    }
}

// x times v modulo g, of degree r. `top` is 2^r.
fn times_x(g: u32, r: usize, top: u32, v: u32) -> u32
    requires { (r ≤ 30) × (top ≡ 2 ^ r) × (v < top) }
    ensures { result ≡ times_x g r v }
{
    let w = v * 2;
    if w < top { w } else { w ^ g }
}

// Fills the lent `table` with the powers of x modulo g that the positions of a word of as many bits carry: the last is 1, and each is x
// times the one after it. g has degree r, and `top` is 2^r. One step for each entry.
pub fn fill_positions(g: u32, r: usize, top: u32, table: &mut [u32])
    requires { (0 < r) × (r ≤ 30) × (top ≡ 2 ^ r) × (g / 2 ^ r ≡ 1) }
    ensures { PositionPowers g r table.new × (length table.new ≡ length table.old) }
{
    let mut v: u32 = 1;
    for i in (0..table.len()).rev() {
        table[i] = v;
        v = times_x(g, r, top, v);
    }
}

// The bit b times x, with no jump: the bit spread over 32 is the mask.
pub fn masked(b: u8, x: u32) -> u32
    requires { b < 2 }
    ensures { result ≡ b * x }
{
    (b as u32) * 4294967295 & x
}

// The sum of the entries of `part` at the ones of `bits`, both lent to read, and the number of bits, each of which is read once. One step for each bit.
pub fn dot(bits: &[u8], part: &[u32]) -> Reading
    requires { (length bits.now ≡ length part.now) × Bits bits.now }
    ensures { (result.sum ≡ xor_sum (length bits.now) (λ j. get_or bits.now j 0 * get_or part.now j 0))
        × (result.reads ≡ length bits.now) }
{
    let mut acc: u32 = 0;
    let mut reads: usize = 0;
    for (j, &bit) in bits.iter().enumerate() {
        acc ^= masked(bit, part[j]);
        reads += 1;
    }
    Reading { sum: acc, reads }
}

// Adds x to the lent entries of `acc` at the ones of `bits`. One step for each bit.
fn add_bits(acc: &mut [u32], bits: &[u8], x: u32)
    requires { (length bits.now ≡ length acc.old) × Bits bits.now }
    ensures { (length acc.new ≡ length acc.old)
        × ((a : ℕ) → a < length acc.old → get_or acc.new a 0 ≡ get_or acc.old a 0 ⊕ get_or bits.now a 0 * x) }
{
    for (a, entry) in acc.iter_mut().enumerate() {
        *entry ^= masked(bits[a], x);
    }
}

// Adds to each of the lent entries of `acc` the entries of `part` at the ones of its column of `block`. The block has a row for each entry
// of `part`, one after the other, and a column for each entry of `acc`. Answers how many bits of each column it has read, one for each row. One step
// for each bit of the block.
pub fn read_rows(acc: &mut [u32], block: &[u8], part: &[u32]) -> usize
    requires { (length block.now ≡ length part.now * length acc.old) × Bits block.now }
    ensures { (length acc.new ≡ length acc.old)
        × ((a : ℕ) → a < length acc.old → get_or acc.new a 0 ≡ get_or acc.old a 0
        ⊕ xor_sum (length part.now) (λ j. get_or block.now (j * length acc.old + a) 0 * get_or part.now j 0))
        × (result ≡ length part.now) }
{
    let w = acc.len();
    let mut reads: usize = 0;
    for (j, &power) in part.iter().enumerate() {
        let from = j * w;
        add_bits(acc, &block[from..from + w], power);
        reads += 1;
    }
    reads
}

// The same, for whoever does not ask how many bits were read.
pub fn add_rows(acc: &mut [u32], block: &[u8], part: &[u32])
    requires { (length block.now ≡ length part.now * length acc.old) × Bits block.now }
    ensures { (length acc.new ≡ length acc.old)
        × ((a : ℕ) → a < length acc.old → get_or acc.new a 0 ≡ get_or acc.old a 0
        ⊕ xor_sum (length part.now) (λ j. get_or block.now (j * length acc.old + a) 0 * get_or part.now j 0)) }
{
    read_rows(acc, block, part);
}
