// The product W c for up to 64 groups at once: W is read once for all of them.
//   multiply(..)   adds the product of a packed matrix and a list of words to another list
//
// Bit g of word k of `constants` is entry k of the constant of group g, and bit g of word e of the product is entry e of its solution: word e is the
// sum, by exclusive or, of the words k at which row e of W has ones. Eight entries of a row stand in one byte, so their sum is one of the 256 sums of
// eight words, which a table has by that byte (V. Arlazarov, E. Dinic, M. Kronrod, I. Faradzhev, 1970). A table is made by doubling, each word after the
// first giving as many sums more as there are.
//
// Eight bytes of a row are taken in one pass over the rows: their tables, 16 KiB, stay in the first cache, and a word of the product is read and written
// once for all of them.
ghost use Rattle.std.specs.Prelude.{◌≡◌, ℕ, ◌+◌, ◌*◌, ◌^◌, ◌≤◌, ◌<◌, length, get_or};
ghost use Rattle.bch.specs.Polynomial.{◌⊕◌};
ghost use Rattle.bch.specs.Powers.{xor_sum};
ghost use Rattle.words_tables.specs.Tables.{sum_at, table_entry};
ghost use Rattle.encoder_solution.specs.Words.{row_product};

// Doubles a table of w sums: entry w + v is entry v plus x.
fn double(table: &mut [u64], w: usize, x: u64)
    requires { 2 * w ≤ length table.old }
    ensures { (length table.new ≡ length table.old)
        × ((v : ℕ) → v < w → get_or table.new v 0 ≡ get_or table.old v 0)
        × ((v : ℕ) → v < w → get_or table.new (w + v) 0 ≡ get_or table.old v 0 ⊕ x) }
{
    // kept as an index loop: the new entries are made from the first ones, and with split_at_mut that is no plainer
    for v in 0..w {
        table[w + v] = table[v] ^ x;
    }
}

// Makes the table of the sums of eight words: entry v adds the words at the ones of v, the first word for the lowest.
fn fill_table(words: &[u64], table: &mut [u64])
    requires { (length words.now ≡ 8) × (length table.old ≡ 256) }
    ensures { (length table.new ≡ length table.old)
        × ((v : ℕ) → v < 256 → get_or table.new v 0 ≡ sum_at (λ i. get_or words.now i 0) 8 v) }
{
    table[0] = 0;
    let mut w: usize = 1;
    for word in words {
        double(table, w, *word);
        w *= 2;
    }
}

// Makes the tables of c times eight words, one after the other.
fn fill_tables(words: &[u64], c: usize, tables: &mut [u64])
    requires { (c ≤ 8) × (length words.now ≡ 8 * c) × (length tables.old ≡ 256 * c) }
    ensures { (length tables.new ≡ length tables.old)
        × ((q : ℕ) → q < 256 * c → get_or tables.new q 0 ≡ table_entry (λ k. get_or words.now k 0) q) }
{
    // kept as an index loop: after a loop over chunks_exact_mut a proof knows the length of the tables and not their entries
    for j in 0..c {
        let from = 8 * j;
        let to = 256 * j;
        fill_table(&words[from..from + 8], &mut tables[to..to + 256]);
    }
}

// Entry b of the table that begins at entry `at`.
fn entry(tables: &[u64], at: usize, b: u8) -> u64
    requires { at + 256 ≤ length tables.now }
    ensures { result ≡ get_or tables.now (at + b) 0 }
{
    tables[at + usize::from(b)]
}

// `row_sum` of eight bytes, as most passes have: without a loop it takes a quarter less.
fn eight_sum(row: &[u8], tables: &[u64]) -> u64
    requires { (length tables.now ≡ 2048) × (length row.now ≡ 8) }
    ensures { result ≡ xor_sum 8 (λ j. get_or tables.now (256 * j + get_or row.now j 0) 0) }
{
    entry(tables, 0, row[0])
        ^ entry(tables, 256, row[1])
        ^ entry(tables, 512, row[2])
        ^ entry(tables, 768, row[3])
        ^ entry(tables, 1024, row[4])
        ^ entry(tables, 1280, row[5])
        ^ entry(tables, 1536, row[6])
        ^ entry(tables, 1792, row[7])
}

// The sum of the tables' entries that the bytes name, a table for each byte.
fn row_sum(row: &[u8], tables: &[u64]) -> u64
    requires { (length tables.now ≡ 256 * length row.now) × (length row.now ≤ 8) }
    ensures { result ≡ xor_sum (length row.now) (λ j. get_or tables.now (256 * j + get_or row.now j 0) 0) }
{
    if row.len() == 8 {
        return eight_sum(row, tables);
    }
    let mut acc: u64 = 0;
    for (j, byte) in row.iter().enumerate() {
        acc ^= entry(tables, 256 * j, *byte);
    }
    acc
}

// Adds to each word of the product what the c bytes of its row from byte b on name in the tables.
fn add_columns(inverse: &[u8], w: usize, b: usize, c: usize, tables: &[u64], products: &mut [u64])
    requires { (length inverse.now ≡ length products.old * w) × (b + c ≤ w) × (c ≤ 8) × (length tables.now ≡ 256 * c) }
    ensures { (length products.new ≡ length products.old)
        × ((e : ℕ) → e < length products.old → get_or products.new e 0 ≡ get_or products.old e 0
        ⊕ xor_sum c (λ j. get_or tables.now (256 * j + get_or inverse.now (e * w + b + j) 0) 0)) }
{
    for (e, product) in products.iter_mut().enumerate() {
        let from = e * w + b;
        *product ^= row_sum(&inverse[from..from + c], tables);
    }
}

// `multiply` with the tables of a pass lent.
fn multiply_in(
    inverse: &[u8],
    w: usize,
    constants: &[u64],
    tables: &mut [u64],
    products: &mut [u64],
)
    requires { (length inverse.now ≡ length products.old * w) × (length constants.now ≡ 8 * w) × (w ≤ 512) × (length tables.old ≡ 2048) }
    ensures { (length products.new ≡ length products.old)
        × ((e : ℕ) → e < length products.old → get_or products.new e 0 ≡ get_or products.old e 0
        ⊕ row_product inverse.now w (λ k. get_or constants.now k 0) e (8 * w)) }
{
    for (k, words) in constants.chunks(64).enumerate() {
        let c = words.len() / 8;
        fill_tables(words, c, &mut tables[0..256 * c]);
        add_columns(inverse, w, 8 * k, c, &tables[0..256 * c], products);
    }
}

// Adds to each lent word of `products` the sum of the words of `constants` at the ones of its row of the matrix, of w bytes a row; a word of `constants`
// for each bit of a row. 256 steps for each byte of a row, and one for each byte of the matrix.
pub fn multiply(inverse: &[u8], w: usize, constants: &[u64], products: &mut [u64])
    requires { (length inverse.now ≡ length products.old * w) × (length constants.now ≡ 8 * w) × (w ≤ 512) }
    ensures { (length products.new ≡ length products.old)
        × ((e : ℕ) → e < length products.old → get_or products.new e 0 ≡ get_or products.old e 0
        ⊕ row_product inverse.now w (λ k. get_or constants.now k 0) e (8 * w)) }
{
    let mut tables = [0u64; 2048];
    multiply_in(inverse, w, constants, &mut tables, products);
}
