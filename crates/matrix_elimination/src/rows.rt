// Rows of one packed matrix are added to rows and exchanged, until a few columns are the identity's in as many rows.
//   add_row, sum_row   a row takes another; a row is made the sum of two others
//   find_pivots        pivots for the columns from lo on, up to the first that has none
//
// A row has w bytes. Every function leaves the length of what it is lent as it is.
ghost use Rattle.std.specs.Prelude.{◌≡◌, cond, ◌≢◌, ℕ, ◌+◌, ◌*◌, ◌≤◌, ◌<◌, eqb, length, get_or};
ghost use Rattle.std.specs.Int.Bits.{bit_xor};
ghost use Rattle.staircase.specs.Lists.{bit_sum};
ghost use Rattle.staircase.specs.Square.{Units, Pivots};
ghost use Rattle.matrix_elimination.specs.Steps.{row_width, left, RowSteps, NoPivot};

// Adds row `from` of the k rows of m to row `to`.
pub fn add_row(m: &mut [u8], k: usize, w: usize, to: usize, from: usize)
    requires { (length m.old ≡ k * w) × (w ≤ 1024) × (k ≤ 4352) × (to < k) × (from < k) × (to ≢ from) }
    ensures { (length m.new ≡ length m.old)
        × ((i c : ℕ) → i < k → c < w → get_or m.new (i * w + c) 0
        ≡ cond (eqb i to) (bit_xor (get_or m.old (to * w + c) 0) (get_or m.old (from * w + c) 0)) (get_or m.old (i * w + c) 0)) }
{
    let x = to * w;
    let y = from * w;
    // Kept as an index loop: both rows lie in one slice, and parts borrowed at once, as by `split_at_mut`, want a case for each order.
    for c in 0..w {
        m[x + c] ^= m[y + c];
    }
}

// Makes row `to` of the k rows of m the sum of the rows x and y.
pub fn sum_row(m: &mut [u8], k: usize, w: usize, to: usize, x: usize, y: usize)
    requires { (length m.old ≡ k * w) × (w ≤ 1024) × (k ≤ 4352) × (to < k) × (x < k) × (y < k) × (to ≢ x) × (to ≢ y) }
    ensures { (length m.new ≡ length m.old)
        × ((i c : ℕ) → i < k → c < w → get_or m.new (i * w + c) 0
        ≡ cond (eqb i to) (bit_xor (get_or m.old (x * w + c) 0) (get_or m.old (y * w + c) 0)) (get_or m.old (i * w + c) 0)) }
{
    let t = to * w;
    let p = x * w;
    let q = y * w;
    // Kept as an index loop, as in `add_row`.
    for c in 0..w {
        m[t + c] = m[p + c] ^ m[q + c];
    }
}

// Exchanges the rows x and y of the k rows of m, by three additions.
fn exchange_rows(m: &mut [u8], k: usize, w: usize, x: usize, y: usize)
    requires { (length m.old ≡ k * w) × (w ≤ 1024) × (k ≤ 4352) × (x < k) × (y < k) × (x ≢ y) }
    ensures { (length m.new ≡ length m.old)
        × ((i c : ℕ) → i < k → c < w → get_or m.new (i * w + c) 0
        ≡ get_or m.old (cond (eqb i x) y (cond (eqb i y) x i) * w + c) 0) }
{
    add_row(m, k, w, x, y);
    add_row(m, k, w, y, x);
    add_row(m, k, w, x, y);
}

// Bit j of row i.
fn entry(m: &[u8], n: usize, w: usize, i: usize, j: usize) -> u8
    requires { (length m.now ≡ (n + 256) * w) × (w ≡ row_width n) × (n ≤ 4096) × (i < n) × (j < n) }
    ensures { result ≡ left n m.now i j }
{
    (m[i * w + j / 8] >> (j % 8)) % 2
}

// Adds row k to row `to` where row `to` has a one in column k.
fn reduce_by(m: &mut [u8], n: usize, w: usize, to: usize, k: usize)
    requires { (length m.old ≡ (n + 256) * w) × (w ≡ row_width n) × (n ≤ 4096) × (to < n) × (k < n) × (to ≢ k) }
    ensures row_steps { RowSteps n m.old m.new }
    ensures by_index { (i j : ℕ) → i < n → j < n → left n m.new i j
        ≡ cond (eqb i to) (bit_sum (left n m.old i j) (left n m.old to k * left n m.old k j)) (left n m.old i j) }
{
    if entry(m, n, w, to, k) == 0 {
        return;
    }
    add_row(m, n + 256, w, to, k);
}

// Makes row i, which stands behind the p pivot rows from lo on, 0 in their columns.
fn reduce_row(m: &mut [u8], n: usize, w: usize, lo: usize, p: usize, i: usize)
    requires { (length m.old ≡ (n + 256) * w) × (w ≡ row_width n) × (n ≤ 4096) × (lo + p ≤ n) × (lo + p ≤ i) × (i < n) × Pivots n lo p (left n m.old) }
    ensures row_steps { RowSteps n m.old m.new }
    ensures pivots { Pivots n lo p (left n m.new)
        × ((k j : ℕ) → k < n → j < n → k ≢ i → left n m.new k j ≡ left n m.old k j)
        × ((j : ℕ) → lo ≤ j → j < lo + p → left n m.new i j ≡ 0) }
{
    for q in 0..p {
        reduce_by(m, n, w, i, lo + q);
    }
}

// The first row from lo + p on with a one in column lo + p, where it is 0 in the columns of the p pivot rows from lo on, or n.
fn find_pivot(m: &mut [u8], n: usize, w: usize, lo: usize, p: usize) -> usize
    requires { (length m.old ≡ (n + 256) * w) × (w ≡ row_width n) × (n ≤ 4096) × (lo + p < n) × Pivots n lo p (left n m.old) }
    ensures row_steps { RowSteps n m.old m.new }
    ensures pivots { Pivots n lo p (left n m.new) × (lo + p ≤ result) × (result ≤ n)
        × (result < n → ((j : ℕ) → lo ≤ j → j < lo + p → left n m.new result j ≡ 0) × (left n m.new result (lo + p) ≡ 1))
        × (result ≡ n → NoPivot n lo (lo + p) (left n m.new)) }
{
    let k = lo + p;
    for i in k..n {
        reduce_row(m, n, w, lo, p, i);
        if entry(m, n, w, i, k) == 1 {
            return i;
        }
    }
    n
}

// Exchanges the rows x and y, unless they are one.
fn exchange(m: &mut [u8], n: usize, w: usize, x: usize, y: usize)
    requires { (length m.old ≡ (n + 256) * w) × (w ≡ row_width n) × (n ≤ 4096) × (x < n) × (y < n) }
    ensures row_steps { RowSteps n m.old m.new }
    ensures by_index { (i j : ℕ) → i < n → j < n → left n m.new i j ≡ left n m.old (cond (eqb i x) y (cond (eqb i y) x i)) j }
{
    if x == y {
        return;
    }
    exchange_rows(m, n + 256, w, x, y);
}

// Makes row i, which has a one in column lo + p and is 0 in the columns of the p pivot rows from lo on, the next pivot row.
fn place_pivot(m: &mut [u8], n: usize, w: usize, lo: usize, p: usize, i: usize)
    requires { (length m.old ≡ (n + 256) * w) × (w ≡ row_width n) × (n ≤ 4096) × (lo + p ≤ i) × (i < n) × Pivots n lo p (left n m.old)
        × ((j : ℕ) → lo ≤ j → j < lo + p → left n m.old i j ≡ 0) × (left n m.old i (lo + p) ≡ 1) }
    ensures row_steps { RowSteps n m.old m.new }
    ensures pivots { Pivots n lo (p + 1) (left n m.new) }
{
    let k = lo + p;
    exchange(m, n, w, i, k);
    for q in 0..p {
        reduce_by(m, n, w, lo + q, k);
    }
}

// Finds pivots for `most` columns from lo on, up to the first that has none, and answers for how many: in as many rows from lo on the columns are the
// identity's.
pub fn find_pivots(m: &mut [u8], n: usize, w: usize, lo: usize, most: usize) -> usize
    requires { (length m.old ≡ (n + 256) * w) × (w ≡ row_width n) × (n ≤ 4096) × (lo + most ≤ n) × Units n lo (left n m.old) }
    ensures row_steps { RowSteps n m.old m.new }
    ensures upper_bound { (result ≤ most) × Pivots n lo result (left n m.new) × (result < most → NoPivot n lo (lo + result) (left n m.new)) }
{
    for p in 0..most {
        let i = find_pivot(m, n, w, lo, p);
        if i == n {
            return p;
        }
        place_pivot(m, n, w, lo, p, i);
    }
    most
}
