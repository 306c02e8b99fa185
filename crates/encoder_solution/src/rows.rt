// The product W c for few groups, by the rows of W.
//   multiply(..)   as that of `product`, by words of which the first bits alone belong to groups
//
// Bit g of the words of `constants` is the constant of group g. Packed into bytes as a row of W is, it masks a row, and the parity of the masked ones is
// an entry of the group's solution. The masked bytes are added by exclusive or and the ones of the sum are counted once, in a loop without a jump, which
// the compiler makes of steps of 32 bytes. That is a pass over the row for each group, where the tables of `product` take one for all of them but have to
// be made and looked up: rows are quicker for few groups. A row is masked for all groups before the next one is read.
//
// A packed constant has the bytes of a row and as many zeros behind them that their number is a multiple of 32: what follows a row in memory is masked
// away with the zeros, and no step is left for single bytes.
ghost use Rattle.std.specs.Prelude.{◌≡◌, ℕ, ◌+◌, ◌*◌, ◌/◌, ◌%◌, ◌^◌, ◌≤◌, ◌<◌, length, get_or, drop};
ghost use Rattle.bch.specs.Polynomial.{◌⊕◌};
ghost use Rattle.staircase.specs.Lists.{sum_bits};
ghost use Rattle.matrix.specs.Packed.{packed_bit};
ghost use Rattle.encoder_solution.specs.Words.{row_product};

// Bit g of eight words as a byte, that of the first word lowest.
fn byte_of(words: &[u64], g: usize) -> u8
    requires { (length words.now ≡ 8) × (g < 64) }
    ensures { (i : ℕ) → i < 8 → result / 2 ^ i % 2 ≡ get_or words.now i 0 / 2 ^ g % 2 }
{
    let mut v: u8 = 0;
    for (i, word) in words.iter().enumerate() {
        v ^= (((*word >> g) % 2) as u8) << i;
    }
    v
}

// Packs bit g of the words, eight to a byte.
fn pack_group(words: &[u64], g: usize, out: &mut [u8])
    requires { (length words.now ≡ 8 * length out.old) × (length out.old ≤ 512) × (g < 64) }
    ensures { (length out.new ≡ length out.old)
        × ((q i : ℕ) → q < length out.old → i < 8 → get_or out.new q 0 / 2 ^ i % 2 ≡ get_or words.now (8 * q + i) 0 / 2 ^ g % 2) }
{
    for (b, byte) in out.iter_mut().enumerate() {
        let from = 8 * b;
        *byte = byte_of(&words[from..from + 8], g);
    }
}

// Packs the first `count` bits of the words, p bytes for each of them, one after the other.
fn pack_groups(words: &[u64], p: usize, count: usize, packed: &mut [u8])
    requires { (length words.now ≡ 8 * p) × (p ≤ 512) × (0 < p) × (count ≤ 32) × (length packed.old ≡ count * p) }
    ensures { (length packed.new ≡ length packed.old)
        × ((q i : ℕ) → q < count * p → i < 8 → get_or packed.new q 0 / 2 ^ i % 2 ≡ get_or words.now (8 * (q % p) + i) 0 / 2 ^ (q / p) % 2) }
{
    // kept as an index loop: after a loop over chunks_exact_mut a proof knows the length of the bytes and not the bytes
    for g in 0..count {
        let from = g * p;
        pack_group(words, g, &mut packed[from..from + p]);
    }
}

// 1 where two packed rows share an odd number of ones, else 0.
fn shared_odd(a: &[u8], b: &[u8]) -> u8
    requires { length a.now ≡ length b.now }
    ensures { result ≡ sum_bits (8 * length a.now) (λ k. packed_bit a.now k * packed_bit b.now k) }
{
    let mut acc: u8 = 0;
    for (x, y) in a.iter().zip(b) {
        acc ^= *x & *y;
    }
    (acc.count_ones() % 2) as u8
}

// The word of which bit g is 1 where the row shares an odd number of ones with the first bytes of the packed constant of group g.
fn row_word(row: &[u8], packed: &[u8], p: usize, count: usize) -> u64
    requires { (length packed.now ≡ count * p) × (length row.now ≤ p) × (p ≤ 512) × (count ≤ 32) }
    ensures { (g : ℕ)
        → (g < count → result / 2 ^ g % 2 ≡ sum_bits (8 * length row.now) (λ k. packed_bit row.now k * packed_bit (drop (g * p) packed.now) k))
        × (count ≤ g → result / 2 ^ g % 2 ≡ 0) }
{
    let mut x: u64 = 0;
    // kept as an index loop: chunks_exact(p) with take(count) and enumerate says it no plainer
    for g in 0..count {
        let from = g * p;
        x ^= u64::from(shared_odd(row, &packed[from..from + row.len()])) << g;
    }
    x
}

// `multiply` with the bytes of the packed constants lent.
fn multiply_in(
    inverse: &[u8],
    w: usize,
    constants: &[u64],
    p: usize,
    count: usize,
    packed: &mut [u8],
    products: &mut [u64],
)
    requires { (length inverse.now ≡ length products.old * w) × (length constants.now ≡ 8 * p) × (w ≤ p) × (p ≤ 512) × (0 < p) × (count ≤ 32)
        × (length packed.old ≡ count * p) × ((k : ℕ) → 8 * w ≤ k → get_or constants.now k 0 ≡ 0) × ((k j : ℕ) → count ≤ j → get_or constants.now k 0 / 2 ^ j % 2 ≡ 0) }
    ensures { (length products.new ≡ length products.old)
        × ((e : ℕ) → e < length products.old → get_or products.new e 0 ≡ get_or products.old e 0
        ⊕ row_product inverse.now w (λ k. get_or constants.now k 0) e (8 * w)) }
{
    pack_groups(constants, p, count, packed);
    for (e, product) in products.iter_mut().enumerate() {
        let from = e * w;
        let end = inverse.len().min(from + p);
        *product ^= row_word(&inverse[from..end], packed, p, count);
    }
}

// Adds to each lent word of `products` the sum of the words of `constants` at the ones of its row of the matrix, of w bytes a row, as
// `product::multiply` does. There are words for p bytes, of which those behind a row's are 0, and so are the bits of all words from `count` on, at most
// 32. One step for each byte of the matrix and each of the bits.
pub fn multiply(
    inverse: &[u8],
    w: usize,
    constants: &[u64],
    p: usize,
    count: usize,
    products: &mut [u64],
)
    requires { (length inverse.now ≡ length products.old * w) × (length constants.now ≡ 8 * p) × (w ≤ p) × (p ≤ 512) × (0 < p) × (count ≤ 32)
        × ((k : ℕ) → 8 * w ≤ k → get_or constants.now k 0 ≡ 0) × ((k j : ℕ) → count ≤ j → get_or constants.now k 0 / 2 ^ j % 2 ≡ 0) }
    ensures { (length products.new ≡ length products.old)
        × ((e : ℕ) → e < length products.old → get_or products.new e 0 ≡ get_or products.old e 0
        ⊕ row_product inverse.now w (λ k. get_or constants.now k 0) e (8 * w)) }
{
    let mut packed = [0u8; 16384];
    multiply_in(
        inverse,
        w,
        constants,
        p,
        count,
        &mut packed[0..count * p],
        products,
    );
}
