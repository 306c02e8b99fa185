// The error positions of a received BCH word, at most three, from its remainder. The word itself is not read.
//   Located   the positions, in rising order
//   locate    finds them
//   fill_sums makes a table from which the values of a remainder are read, four bits at a time
//
// The remainder is the sum of one table entry for each error, so the positions are those whose entries have that sum; the BCH bound leaves
// at most one choice of them. A candidate counts only where its entries have the sum, so nothing wrong is located; the algebra shows that
// nothing is missed. All take constant work after the remainder's bits are read, but for a few remainders (about one of 2^m) of three errors.
// - S1 and S3, the remainder's values at the root α and at its cube, are the sums of α^e and of α^3e over the errors, where the error's
//   position carries x^e. They are kept in one number, S1 + 65536 S3.
// - One error: e is the logarithm of S1.
// - Two errors: with z = α^e / S1, S3 + S1³ = S1³ (z² + z). A table has a solution z for each value of z² + z.
// - Three errors: with S5, the value at the fifth power of the root, and Y = α^e + S1, Y³ + a Y + d = 0, where d = S1³ + S3 and
//   a d = S1⁵ + S5. With a = c² and Y = c z, z³ + z = d / c³. A table has a solution z for each value of z³ + z; each solution is one of the
//   three, and the other two are found as above from what is left of the sum. Where a is 0, each position is tried.
#![tactic(auto)]

ghost use Rattle.std.specs.Prelude.{◌≡◌, ◌≢◌, ◌⊎◌, ◌+◌, ◌-◌, ◌*◌, ◌%◌, ◌^◌, ◌≤◌, ◌<◌, length, take, drop};
ghost use Rattle.bch.specs.Field.{power, value_at};
ghost use Rattle.bch.specs.Locator.{PowerIs, SyndromeTable, syndromes};
ghost use Rattle.decoder_locator.specs.Located.{located, positions_of, SumTable, Words, LocatorTables};
ghost use Rattle.decoder_locator.specs.Steps.{Field, LogIs, SolutionIs, NotOne, SingleIs, PairIs, TripleIs, TripleWith, CarryAre, RootOf, ExponentsAre, CubicRootOf};

// The positions of at most three errors, the first in front.
#[derive(Clone, Copy)]
pub enum Located {
    Nowhere,
    One(usize),
    Two(usize, usize),
    Three(usize, usize, usize),
}

// An exponent below n with the same power as x, where the powers come back after n. No division.
fn wrap(x: usize, n: usize) -> usize
    requires { x < 2 * n }
    ensures { (result < n) × ((result ≡ x) ⊎ (result + n ≡ x)) }
{
    if x < n { x } else { x - n }
}

// The exponent of the square root of power w, where the powers come back after n, which is odd.
fn half_exponent(w: usize, n: usize) -> usize
    requires { (w < 2 * n) × (n < 1024) × (n % 2 ≡ 1) }
    ensures { (result < 2 * n) × ((2 * result ≡ w) ⊎ (2 * result ≡ w + n)) }
{
    if w % 2 == 0 { w / 2 } else { (w + n) / 2 }
}

// The tables of the field of 2^m elements, each in a quarter of one list.
#[derive(Clone, Copy)]
struct Tables<'a> {
    m: usize,
    field: &'a [u16],
    ghost filled: { ∥ Field m field.now ∥₁ },
}

impl Tables<'_> {
    // How many powers the root has.
    fn count(&self) -> usize
        ensures { (result ≡ 2 ^ self.now.m - 1) × (15 ≤ result) × (result < 1024) × (result % 2 ≡ 1) }
    {
        self.field.len() / 4 - 1
    }

    // Power e of the root.
    fn power_at(&self, e: usize) -> usize
        requires { e < 2 ^ self.now.m - 1 }
        ensures { (result ≡ power self.now.m e) × (result < 2 ^ self.now.m) }
    {
        let powers = &self.field[0..self.count()];
        usize::from(powers[e])
    }

    // The logarithm of the field element x.
    fn log_of(&self, x: usize) -> usize
        requires { x < 2 ^ self.now.m }
        ensures { LogIs self.now.m x result }
    {
        let q = self.field.len() / 4;
        let logs = &self.field[q..2 * q];
        usize::from(logs[x])
    }

    // The exponent of a solution z of z² + z = power v, where k is 1, and of z³ + z = power v, where k is 2; 0 where there is none.
    fn solution_at(&self, k: usize, v: usize) -> usize
        requires { (1 ≤ k) × (k ≤ 2) × (v < 2 ^ self.now.m - 1) }
        ensures { SolutionIs self.now.m k v result }
    {
        let q = self.field.len() / 4;
        let start = (k + 1) * q;
        let solutions = &self.field[start..start + q - 1];
        usize::from(solutions[v])
    }

    // Of two powers of the root whose sum is power a and whose cubes have the sum `cubes`, one is power h + a, where h is the answer. It is 0
    // where there are no such two.
    fn root(&self, a: usize, cubes: usize) -> usize
        requires { (a < 2 ^ self.now.m - 1) × (cubes < 2 ^ self.now.m) }
        ensures { (result < 2 ^ self.now.m - 1) × RootOf self.now.m a cubes result }
    {
        let n = self.count();
        let c = wrap(wrap(2 * a, n) + a, n);
        let d = cubes ^ self.power_at(c);
        if d == 0 {
            return 0;
        }
        let v = wrap(self.log_of(d) + n - c, n);
        self.solution_at(1, v)
    }

    // The exponents of the two powers of the root whose sum is `sum` and whose cubes have the sum `cubes`.
    fn exponents(&self, sum: usize, cubes: usize) -> Option<(usize, usize)>
        requires { (sum < 2 ^ self.now.m) × (cubes < 2 ^ self.now.m) }
        ensures { ExponentsAre self.now.m sum cubes result }
    {
        if sum == 0 {
            return None;
        }
        let a = self.log_of(sum);
        let h = self.root(a, cubes);
        if h == 0 {
            return None;
        }
        let e = wrap(h + a, self.count());
        let f = self.log_of(sum ^ self.power_at(e));
        Some((e, f))
    }

    // The value of the polynomial x, of r bits, at the fifth power of the root: one power for each bit.
    fn fifth_of(&self, r: usize, x: usize) -> usize
        requires { (r ≤ 30) × (x < 2 ^ r) }
        ensures { result ≡ value_at self.now.m 5 x }
    {
        let n = self.count();
        let mut acc: usize = 0;
        let mut e: usize = 0;
        for k in 0..r {
            acc ^= (x >> k) % 2 * self.power_at(e);
            e = wrap(e + 5, n);
        }
        acc
    }

    // Power k of the field element x, where k is at most 5.
    fn power_of(&self, k: usize, x: usize) -> usize
        requires { (k ≤ 5) × (x < 2 ^ self.now.m) }
        ensures { (result < 2 ^ self.now.m) × PowerIs self.now.m k x result }
    {
        if x == 0 {
            return 0;
        }
        self.power_at(k * self.log_of(x) % self.count())
    }

    // The exponent of one of three powers of the root. Their sum is `sum`, d is the sum of their cubes and the cube of `sum`, and e that of their
    // fifth powers and the fifth power of `sum`. Any exponent where there are no such three.
    fn cubic_root(&self, sum: usize, d: usize, e: usize) -> usize
        requires { (sum < 2 ^ self.now.m) × (d < 2 ^ self.now.m) × (d ≢ 0) × (e < 2 ^ self.now.m) × (e ≢ 0) }
        ensures { CubicRootOf self.now.m sum d e result }
    {
        let n = self.count();
        let u = self.log_of(d);
        let h = half_exponent(self.log_of(e) + n - u, n);
        let g = self.solution_at(2, (u + 6 * n - 3 * h) % n);
        self.log_of(sum ^ self.power_at((h + g) % n))
    }
}

// The values of the polynomial x, of r bits, at the root and at its cube: one entry of the positions' table for each bit. The last entry is for the
// lowest.
fn values_by_bits(m: usize, r: usize, x: u32, table: &[u32]) -> u32
    requires { (4 ≤ m) × (m ≤ 10) × (r ≤ 32) × (r ≤ length table.now) × (x < 2 ^ r) × SyndromeTable m table.now }
    ensures { result ≡ syndromes m x }
{
    let mut acc: u32 = 0;
    for (k, entry) in table.iter().rev().take(r).enumerate() {
        acc ^= (x >> k) % 2 * entry;
    }
    acc
}

// Fills the 128 entries of `table` that follow those of the n positions with the values of the polynomials of four bits, for remainders of r bits.
// At most 32 steps for each entry.
pub fn fill_sums(m: usize, r: usize, n: usize, table: &mut [u32])
    requires { (4 ≤ m) × (m ≤ 10) × (r ≤ 30) × (r + 3 ≤ n) × (length table.old ≡ n + 128) × SyndromeTable m (take n table.old) }
    ensures { SyndromeTable m (take n table.new) × SumTable m r (drop n table.new)
        × (length table.new ≡ length table.old) }
{
    let count = 16 * ((r + 3) / 4);
    let (entries, sums) = table.split_at_mut(n);
    for (p, sum) in sums[..count].iter_mut().enumerate() {
        let low = 4 * (p / 16);
        *sum = values_by_bits(m, low + 4, ((p % 16) as u32) << low, entries);
    }
}

// What is lent to `locate` for words with at most t errors: the entries of the positions, their values with those of
// `fill_sums` behind them, and the tables of the field. Each table has its own lifetime, as in the call of `locate`.
#[derive(Clone, Copy)]
struct Locator<'p, 'v, 'f> {
    t: usize,
    positions: &'p [u32],
    values: &'v [u32],
    tables: Tables<'f>,
    ghost words: { Words tables.m t positions.now },
    ghost as_long: { length values.now ≡ length positions.now + 128 },
    ghost syndrome: { SyndromeTable tables.m (take (length positions.now) values.now) },
    ghost sums: { SumTable tables.m (tables.m * t) (drop (length positions.now) values.now) },
}

impl Locator<'_, '_, '_> {
    // The values of the polynomial x, of m t bits, at the root and at its cube: one entry of the sums for each four bits.
    fn values_of(&self, x: u32) -> u32
        requires { x < 2 ^ (self.now.tables.m * self.now.t) }
        ensures { result ≡ syndromes self.now.tables.m x }
    {
        let sums = &self.values[self.positions.len()..];
        let r = self.tables.m * self.t;
        let mut acc: u32 = 0;
        // kept as an index loop: four bits choose the entry, and chunks_exact(16) with take and enumerate says it no plainer
        for k in 0..(r + 3) / 4 {
            acc ^= sums[16 * k + ((x >> 4 * k) % 16) as usize];
        }
        acc
    }

    // The position whose entry is x. `s` has the values of x.
    fn one(&self, x: u32, s: u32) -> Option<usize>
        requires { s ≡ syndromes self.now.tables.m x }
        ensures { SingleIs self.now.positions.now x result }
    {
        let low = (s % 65536) as usize;
        if low == 0 {
            return None;
        }
        let n = self.positions.len();
        let e = self.tables.log_of(low);
        if n <= e {
            return None;
        }
        let p = n - 1 - e;
        if self.positions[p] != x {
            return None;
        }
        Some(p)
    }

    // The positions that carry x^e and x^f, where their entries have the sum x, which is not 0.
    fn pair_at(&self, x: u32, e: usize, f: usize) -> Option<(usize, usize)>
        requires { x ≢ 0 }
        ensures { CarryAre self.now.positions.now x e f result }
    {
        let n = self.positions.len();
        if n <= e {
            return None;
        }
        if n <= f {
            return None;
        }
        let p = n - 1 - e;
        let q = n - 1 - f;
        if self.positions[p] ^ self.positions[q] != x {
            return None;
        }
        if p < q {
            return Some((p, q));
        }
        Some((q, p))
    }

    // The two positions whose entries have the sum x. `s` has the values of x.
    fn two(&self, x: u32, s: u32) -> Option<(usize, usize)>
        requires { (2 ≤ self.now.t) × (s ≡ syndromes self.now.tables.m x) }
        ensures { PairIs self.now.positions.now x result }
    {
        let (e, f) = self
            .tables
            .exponents((s % 65536) as usize, (s / 65536) as usize)?;
        self.pair_at(x, e, f)
    }

    // The three positions whose entries have the sum x, where j is one of them and the sum is no single entry. `s` has the values of x.
    fn three_with(&self, x: u32, s: u32, j: usize) -> Option<(usize, usize, usize)>
        requires { (2 ≤ self.now.t) × (s ≡ syndromes self.now.tables.m x) × NotOne self.now.positions.now x
            × (j < length self.now.positions.now) }
        ensures { TripleWith self.now.positions.now x j result }
    {
        let (p, q) = self.two(x ^ self.positions[j], s ^ self.values[j])?;
        if j < p {
            return Some((j, p, q));
        }
        if j < q {
            return Some((p, j, q));
        }
        Some((p, q, j))
    }

    // The three positions whose entries have the sum x, where it is no single entry: each position is tried as one of them. `s` has the values of x.
    // One step for each position.
    fn three_by_trial(&self, x: u32, s: u32) -> Option<(usize, usize, usize)>
        requires { (2 ≤ self.now.t) × (s ≡ syndromes self.now.tables.m x) × NotOne self.now.positions.now x }
        ensures { TripleIs self.now.positions.now x result }
    {
        for j in 0..self.positions.len() {
            if let Some(found) = self.three_with(x, s, j) {
                return Some(found);
            }
        }
        None
    }

    // The three positions whose entries have the sum x, where it is no single entry. `s` has the values of x.
    fn three(&self, x: u32, s: u32) -> Option<(usize, usize, usize)>
        requires { (self.now.t ≡ 3) × (s ≡ syndromes self.now.tables.m x) × NotOne self.now.positions.now x
            × (x < 2 ^ (self.now.tables.m * self.now.t)) }
        ensures { TripleIs self.now.positions.now x result }
    {
        let sum = (s % 65536) as usize;
        let d = self.tables.power_of(3, sum) ^ ((s / 65536) as usize);
        if d == 0 {
            return None;
        }
        let e = self.tables.power_of(5, sum)
            ^ self.tables.fifth_of(self.tables.m * self.t, x as usize);
        if e == 0 {
            return self.three_by_trial(x, s);
        }
        let k = self.tables.cubic_root(sum, d, e);
        let n = self.positions.len();
        if n <= k {
            return None;
        }
        self.three_with(x, s, n - 1 - k)
    }
}

// The positions, at most t, whose entries have the sum `remainder`; `Nowhere` where there are no such, and where the remainder is 0. The lent
// tables are the entries of the positions, their values at the root and its cube with those of `fill_sums`, and the tables of the field. The work
// grows with the bits of the remainder, and for about one of 2^m remainders with the length of a word.
pub fn locate(
    m: usize,
    t: usize,
    remainder: u32,
    positions: &[u32],
    syndromes: &[u32],
    field: &[u16],
) -> Located
    requires { LocatorTables m t positions.now syndromes.now field.now × (remainder < 2 ^ (m * t)) }
    ensures { positions_of result ≡ located positions.now t remainder }
{
    if remainder == 0 {
        return Located::Nowhere;
    }
    let locator = Locator {
        t,
        positions,
        values: syndromes,
        tables: Tables { m, field },
    };
    let s = locator.values_of(remainder);
    if let Some(p) = locator.one(remainder, s) {
        return Located::One(p);
    }
    if t < 2 {
        return Located::Nowhere;
    }
    if let Some((p, q)) = locator.two(remainder, s) {
        return Located::Two(p, q);
    }
    if t < 3 {
        return Located::Nowhere;
    }
    match locator.three(remainder, s) {
        None => Located::Nowhere,
        Some((j, p, q)) => Located::Three(j, p, q),
    }
}
