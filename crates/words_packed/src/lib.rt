// Eight rows of bits in one row of bytes.
//   pack(rows, count, packed)   brings at most eight rows of bits, one bit a byte, into the bits of one row of bytes
//
// Bit i of byte k is bit k of row i; bits of rows that are not there are 0. Eight rows go in one pass, which the compiler makes of steps of 16 bytes, fewer
// go row by row. Each bit of the rows is read once, and the reads of a row are counted where they are made.
#![tactic(auto)]

ghost use Rattle.std.specs.Prelude.{◌≡◌, ℕ, ◌+◌, ◌*◌, ◌/◌, ◌%◌, ◌^◌, ◌≤◌, ◌<◌, length, get_or};
ghost use Rattle.bch.specs.Polynomial.{Bits};

// Brings eight rows into a row of bytes. Answers how many bits of each row it has read.
fn pack_eight(rows: &[u8], packed: &mut [u8]) -> usize
    requires { (length rows.now ≡ 8 * length packed.old) × Bits rows.now }
    ensures { (length packed.new ≡ length packed.old)
        × ((k i : ℕ) → k < length packed.old → i < 8
        → get_or packed.new k 0 / 2 ^ i % 2 ≡ get_or rows.now (i * length packed.old + k) 0)
        × (result ≡ length packed.old) }
{
    let w = packed.len();
    let mut reads: usize = 0;
    for (k, byte) in packed.iter_mut().enumerate() {
        let a = rows[7 * w + k];
        let b = 2 * a + rows[6 * w + k];
        let c = 2 * b + rows[5 * w + k];
        let d = 2 * c + rows[4 * w + k];
        let e = 2 * d + rows[3 * w + k];
        let f = 2 * e + rows[2 * w + k];
        let g = 2 * f + rows[w + k];
        *byte = 2 * g + rows[k];
        reads += 1;
    }
    reads
}

// Doubles each byte and adds the bit of a row. Answers how many bits of the row it has read.
fn double_in(row: &[u8], packed: &mut [u8]) -> usize
    requires { (length row.now ≡ length packed.old) × Bits row.now × ((k : ℕ) → get_or packed.old k 0 < 128) }
    ensures { (length packed.new ≡ length packed.old)
        × ((k : ℕ) → k < length packed.old → get_or packed.new k 0 ≡ 2 * get_or packed.old k 0 + get_or row.now k 0)
        × (result ≡ length packed.old) }
{
    let mut reads: usize = 0;
    for (k, byte) in packed.iter_mut().enumerate() {
        *byte = 2 * *byte + row[k];
        reads += 1;
    }
    reads
}

// Brings at most eight rows into a row of bytes, one after the other, the last first. Answers how many bits of each row it has read.
fn pack_few(rows: &[u8], count: usize, packed: &mut [u8]) -> usize
    requires { (length rows.now ≡ count * length packed.old) × (0 < count) × (count ≤ 8) × Bits rows.now }
    ensures { (length packed.new ≡ length packed.old)
        × ((k i : ℕ) → k < length packed.old → i < 8
        → get_or packed.new k 0 / 2 ^ i % 2 ≡ get_or rows.now (i * length packed.old + k) 0)
        × (result ≡ length packed.old) }
{
    let w = packed.len();
    packed.fill(0);
    let mut reads: usize = 0;
    for i in (0..count).rev() {
        let from = i * w;
        reads = double_in(&rows[from..from + w], packed);
    }
    reads
}

// Brings at most eight rows of bits into the lent row of bytes. Answers how many bits of each row it has read. One step for each bit.
pub fn pack(rows: &[u8], count: usize, packed: &mut [u8]) -> usize
    requires { (length rows.now ≡ count * length packed.old) × (0 < count) × (count ≤ 8) × Bits rows.now }
    ensures { (length packed.new ≡ length packed.old)
        × ((k i : ℕ) → k < length packed.old → i < 8
        → get_or packed.new k 0 / 2 ^ i % 2 ≡ get_or rows.now (i * length packed.old + k) 0)
        × (result ≡ length packed.old) }
{
    if count == 8 {
        pack_eight(rows, packed)
    } else {
        pack_few(rows, count, packed)
    }
}
