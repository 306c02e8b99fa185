// Sums over columns whose bits stand where a list sends them: eight bits of a column are read through the list, and their byte names the sum of eight entries.
ghost use Rattle.std.specs.Prelude.{◌≡◌, ℕ, ◌+◌, ◌*◌, ◌≤◌, ◌<◌, length, get_or};
ghost use Rattle.bch.specs.Polynomial.{◌⊕◌, Bits};
ghost use Rattle.bch.specs.Powers.{xor_sum};
ghost use Rattle.words_tables.specs.Tables.{Sums};
ghost use Rattle.words_sums.specs.Listed.{Sends, listed_bit, listed_byte};

// The bit to which the list sends place p.
fn bit_at(list: &[u8], bits: &[u8], p: usize) -> u8
    requires { Sends list.now (length bits.now) × Bits bits.now × (p < length bits.now) }
    ensures { (result ≡ listed_bit list.now bits.now p) × (result < 2) }
{
    let e = rules::entry(list, p);
    bits[e]
}

// The byte of eight bits w places apart, from place p on, the first lowest.
fn eight_bits(list: &[u8], bits: &[u8], p: usize, w: usize) -> u8
    requires { Sends list.now (length bits.now) × Bits bits.now × (p + 7 * w < length bits.now) }
    ensures { result ≡ listed_byte list.now bits.now p w 8 }
{
    let a = bit_at(list, bits, p + 7 * w);
    let b = 2 * a + bit_at(list, bits, p + 6 * w);
    let c = 2 * b + bit_at(list, bits, p + 5 * w);
    let d = 2 * c + bit_at(list, bits, p + 4 * w);
    let e = 2 * d + bit_at(list, bits, p + 3 * w);
    let f = 2 * e + bit_at(list, bits, p + 2 * w);
    let g = 2 * f + bit_at(list, bits, p + w);
    2 * g + bit_at(list, bits, p)
}

// The byte of `count` bits, at most eight, w places apart from place p on. The bits behind them are 0.
fn few_bits(list: &[u8], bits: &[u8], p: usize, w: usize, count: usize) -> u8
    requires { Sends list.now (length bits.now) × Bits bits.now × (count ≤ 8) × (p + count * w < length bits.now + w) }
    ensures { result ≡ listed_byte list.now bits.now p w count }
{
    let mut v: u8 = 0;
    for i in (0..count).rev() {
        v = 2 * v + bit_at(list, bits, p + i * w);
    }
    v
}

// `few_bits`, with the loop written out where there are eight bits.
fn bits_of(list: &[u8], bits: &[u8], p: usize, w: usize, count: usize) -> u8
    requires { Sends list.now (length bits.now) × Bits bits.now × (count ≤ 8) × (p + count * w < length bits.now + w) }
    ensures { result ≡ listed_byte list.now bits.now p w count }
{
    if count == 8 {
        eight_bits(list, bits, p, w)
    } else {
        few_bits(list, bits, p, w, count)
    }
}

// Adds to each entry of `acc` the entry of the table that the byte of its `count` bits names, at most eight: for entry a those from place p + a on.
fn look_listed(acc: &mut [u32], list: &[u8], bits: &[u8], p: usize, count: usize, table: &[u32])
    requires { Sends list.now (length bits.now) × Bits bits.now × (count ≤ 8) × (p + count * length acc.old ≤ length bits.now)
        × (length table.now ≡ 256) }
    ensures { (length acc.new ≡ length acc.old)
        × ((a : ℕ) → a < length acc.old → get_or acc.new a 0 ≡ get_or acc.old a 0
        ⊕ get_or table.now (listed_byte list.now bits.now (p + a) (length acc.old) count) 0) }
{
    let w = acc.len();
    for (a, sum) in acc.iter_mut().enumerate() {
        *sum ^= crate::entry(table, bits_of(list, bits, p + a, w, count));
    }
}

// Adds to each of the lent entries of `acc` the entries of `part` at the ones of its column: bit j of column a is the byte of `bits` to which the list sends
// place j × w + a, with w columns. The tables are those of `part`. Answers how many bits of each column it has read. Each bit is read once, through the list.
pub fn add_listed(acc: &mut [u32], list: &[u8], bits: &[u8], part: &[u32], tables: &[u32]) -> usize
    requires { Sends list.now (length bits.now) × (length bits.now ≡ length part.now * length acc.old) × Bits bits.now
        × Sums part.now tables.now }
    ensures { (length acc.new ≡ length acc.old)
        × ((a : ℕ) → a < length acc.old → get_or acc.new a 0 ≡ get_or acc.old a 0
        ⊕ xor_sum (length part.now)
        (λ j. listed_bit list.now bits.now (j * length acc.old + a) * get_or part.now j 0))
        × (result ≡ length part.now) }
{
    let w = acc.len();
    let groups = (part.len() + 7) / 8;
    let mut reads: usize = 0;
    for g in 0..groups {
        let count = (part.len() - 8 * g).min(8);
        let at = 256 * g;
        look_listed(acc, list, bits, 8 * g * w, count, &tables[at..at + 256]);
        reads += count;
    }
    reads
}
