// The systems of up to 64 groups, A y + c, with the inverse W that all share: their constants, the solutions y = W c and the parities after them.
//   p_bits(..)         makes P, or Q, from the remainders of its words
//   add_constant(..)   brings the constant of a group into its bit of one word for each place
//   solve(..)          makes the words of the constants those of the solutions
//   y_bits(..)         makes Y of a group from its bit of the words
//   add_bits(..)       adds what Y adds to P
//
// The digits of the remainders of a group's words without Y are P and Q as they would be for Y = 0, and the constant is the one plus the other where
// the parity list brings it. So y = W c, with W the inverse of A that the kit has.
//
// W has (size × r)² bits and is most of what is read, so it is read once for up to 64 groups: bit g of a word belongs to group g. For many groups the
// product goes by tables of sums (module `product`), for few by the parity of each row and each constant (module `rows`). Words are in the order of places, as Y and P are, so that bits go in and come out side by side and without a division; `solve` brings them into the order of the
// stack and back, once for all groups.
#![tactic(auto)]

mod product;
mod rows;

ghost use Rattle.std.specs.Prelude.{◌≡◌, cond, ℕ, ◌+◌, ◌-◌, ◌*◌, ◌/◌, ◌%◌, ◌^◌, ◌≤◌, ◌<◌, eqb, length, get_or};
ghost use Rattle.bch.specs.Polynomial.{Bits, ◌⊕◌};
ghost use Rattle.staircase.specs.Lists.{bit_sum, tabulate};
ghost use Rattle.staircase.specs.Design.{most-order};
ghost use Rattle.staircase.specs.System.{row_bytes};
ghost use Rattle.encoder_solution.specs.Bits.{place_constant};
ghost use Rattle.encoder_solution.specs.Words.{row_product, solution_word};

// Makes `out` digit `shift` of each entry of `columns`.
fn digits(columns: &[u32], shift: usize, out: &mut [u8])
    requires { (length out.old ≡ length columns.now) × (shift < 32) }
    ensures { out.new ≡ tabulate (length columns.now) (λ b. get_or columns.now b 0 / 2 ^ shift % 2) }
{
    for (b, digit) in out.iter_mut().enumerate() {
        *digit = ((columns[b] >> shift) % 2) as u8;
    }
}

// Makes P in the lent `out`, or Q, from the lent remainders of its words: bit a of word b stands at place a × size + b. One step for each of the
// size × r bits.
pub fn p_bits(columns: &[u32], size: usize, r: usize, out: &mut [u8])
    requires { (length columns.now ≡ size) × (length out.old ≡ size * r) × (0 < size) × (r ≤ 32) }
    ensures { out.new ≡ tabulate (size * r) (λ q. get_or columns.now (q % size) 0 / 2 ^ (r - 1 - q / size) % 2) }
{
    for a in 0..r {
        let from = a * size;
        digits(columns, r - 1 - a, &mut out[from..from + size]);
    }
}

// The bit of the constant at place q, from Q and P for Y = 0.
fn constant_at(bits: &[u8], preimages: &[u16], q: usize) -> u64
    requires { (length bits.now ≡ 2 * length preimages.now) × Bits bits.now × (q < length preimages.now)
        × (get_or preimages.now q 0 < length preimages.now) }
    ensures { (result ≡ place_constant bits.now preimages.now (length preimages.now) q) × (result < 2) }
{
    let p = usize::from(preimages[q]);
    u64::from((bits[preimages.len() + q] + bits[p]) % 2)
}

// Adds the constant of a group to bit g of the lent words, one for each place. Lent to read are Q and P of the group as they would be for Y = 0, Q
// first, and the place of Q that the parity list sends to each place of P. A few steps for each place.
pub fn add_constant(bits: &[u8], preimages: &[u16], g: usize, words: &mut [u64])
    requires { (length preimages.now ≡ length words.old) × (length bits.now ≡ 2 * length words.old) × Bits bits.now × (g < 64)
        × ((q : ℕ) → q < length words.old → get_or preimages.now q 0 < length words.old) }
    ensures { (length words.new ≡ length words.old)
        × ((q j : ℕ) → q < length words.old → get_or words.new q 0 / 2 ^ j % 2 ≡ bit_sum (get_or words.old q 0 / 2 ^ j % 2)
        (cond (eqb g j) (place_constant bits.now preimages.now (length words.old) q) 0)) }
{
    for (q, word) in words.iter_mut().enumerate() {
        *word ^= constant_at(bits, preimages, q) << g;
    }
}

// Makes `to` the transposed matrix of `from`: m rows of n entries become n rows of m.
fn transpose(from: &[u64], n: usize, m: usize, to: &mut [u64])
    requires { (length from.now ≡ n * m) × (length to.old ≡ n * m) × (0 < m) }
    ensures { to.new ≡ tabulate (n * m) (λ k. get_or from.now (k % m * n + k / m) 0) }
{
    for (k, entry) in to.iter_mut().enumerate() {
        *entry = from[k % m * n + k / m];
    }
}

// Adds to each lent word of `products` the product of its row of the inverse, of order n, and the words of the stack. Behind the stack's the words are 0,
// and so are the bits of all words from `count` on. Rows are quicker below a group for each 16 bytes of a row: the more bytes it has, the more tables
// there are to be made and the less of the inverse stays in the cache from one pass to the next.
fn multiply(inverse: &[u8], n: usize, count: usize, constants: &[u64], products: &mut [u64])
    requires { (length inverse.now ≡ n * row_bytes n) × (length products.old ≡ n) × (0 < n) × (n ≤ most-order) × (length constants.now ≡ 4096)
        × ((k : ℕ) → n ≤ k → get_or constants.now k 0 ≡ 0) × ((k j : ℕ) → count ≤ j → get_or constants.now k 0 / 2 ^ j % 2 ≡ 0) }
    ensures { (length products.new ≡ length products.old)
        × ((e : ℕ) → e < n → get_or products.new e 0 ≡ get_or products.old e 0
        ⊕ row_product inverse.now (row_bytes n) (λ k. get_or constants.now k 0) e n) }
{
    let w = (n + 7) / 8;
    if count < w / 16 {
        let p = (w + 31) / 32 * 32;
        rows::multiply(inverse, w, &constants[0..8 * p], p, count, products);
        return;
    }
    product::multiply(inverse, w, &constants[0..8 * w], products);
}

// `solve` with its working words lent, all 0 at first: `constants` for those of the stack, and `products`.
fn solve_in(
    inverse: &[u8],
    size: usize,
    r: usize,
    count: usize,
    constants: &mut [u64],
    products: &mut [u64],
    words: &mut [u64],
)
    requires { (length inverse.now ≡ size * r * row_bytes (size * r)) × (length words.old ≡ size * r) × (0 < size) × (0 < r) × (size * r ≤ most-order)
        × (length constants.old ≡ 4096) × ((k : ℕ) → get_or constants.old k 0 ≡ 0)
        × (length products.old ≡ size * r) × ((k : ℕ) → get_or products.old k 0 ≡ 0)
        × ((q j : ℕ) → q < size * r → count ≤ j → get_or words.old q 0 / 2 ^ j % 2 ≡ 0) }
    ensures { words.new ≡ tabulate (size * r) (solution_word inverse.now words.old size r) }
{
    let n = size * r;
    transpose(words, size, r, &mut constants[0..n]);
    multiply(inverse, n, count, constants, products);
    transpose(products, r, size, words);
}

// Multiplies the constants of `count` groups, at most 64, by the inverse: bit g of the lent words, one for each place, is the constant of group g before
// and its solution Y afterwards. The bits of no group are 0 and stay so. One step for each byte of the inverse: for all groups, or for each of few.
pub fn solve(inverse: &[u8], size: usize, r: usize, count: usize, words: &mut [u64])
    requires { (length inverse.now ≡ size * r * row_bytes (size * r)) × (length words.old ≡ size * r) × (0 < size) × (0 < r) × (size * r ≤ most-order)
        × ((q j : ℕ) → q < size * r → count ≤ j → get_or words.old q 0 / 2 ^ j % 2 ≡ 0) }
    ensures { words.new ≡ tabulate (size * r) (solution_word inverse.now words.old size r) }
{
    let n = size * r;
    let mut constants = [0u64; 4096];
    let mut products = [0u64; 4096];
    solve_in(
        inverse,
        size,
        r,
        count,
        &mut constants,
        &mut products[0..n],
        words,
    );
}

// Makes Y of a group in the lent `out` from bit g of the words, one for each place.
pub fn y_bits(words: &[u64], g: usize, out: &mut [u8])
    requires { (length out.old ≡ length words.now) × (g < 64) }
    ensures { out.new ≡ tabulate (length words.now) (λ q. get_or words.now q 0 / 2 ^ g % 2) }
{
    for (q, bit) in out.iter_mut().enumerate() {
        *bit = ((words[q] >> g) % 2) as u8;
    }
}

// Adds the lent bits to those of `out`, place by place.
pub fn add_bits(bits: &[u8], out: &mut [u8])
    requires { (length bits.now ≡ length out.old) × Bits bits.now × Bits out.old }
    ensures { out.new ≡ tabulate (length out.old) (λ q. bit_sum (get_or out.old q 0) (get_or bits.now q 0)) }
{
    for (q, sum) in out.iter_mut().enumerate() {
        *sum = (*sum + bits[q]) % 2;
    }
}
