// Inverts a packed square matrix of bits by elimination, eight columns at a time.
//   invert   the first column that is a sum of earlier ones, or, where there is none, the inverse
//
// All is done in one matrix. A row of it has a row of the matrix to be inverted and, behind it, a row of what is the identity at first: once the left
// half is the identity, the right half is the inverse. For each byte of the rows, pivots are found for its eight columns (module `rows`); 256 further
// rows are a table of all sums of the pivot rows, and every other row takes the sum that its byte names (module `tables`). Each column done leaves a
// system with one column fewer.
#![tactic(auto)]

mod rows;
mod tables;

ghost use Rattle.std.specs.Prelude.{◌≡◌, cond, ℕ, ◌+◌, ◌*◌, ◌%◌, ◌≤◌, ◌<◌, eqb, length, get_or};
ghost use Rattle.staircase.specs.Lists.{first_where};
ghost use Rattle.staircase.specs.System.{identity, row_bytes};
ghost use Rattle.staircase.specs.Square.{Units, dependent, inverse_matrix, packed_matrix};
ghost use Rattle.matrix_elimination.specs.Steps.{row_width, left, right, RowSteps};

// Makes the columns from lo on, of one byte of the rows, the identity's, up to the first for which there is no pivot, and answers how many are.
fn clear_byte(m: &mut [u8], n: usize, w: usize, lo: usize) -> usize
    requires { (length m.old ≡ (n + 256) * w) × (w ≡ row_width n) × (n ≤ 4096) × (lo % 8 ≡ 0) × (lo < n) × Units n lo (left n m.old) }
    ensures result_bound { (lo + result ≤ n) × (result ≤ 8) × Units n (lo + result) (left n m.new)
        × (result < 8 → lo + result < n → (i : ℕ) → lo + result ≤ i → i < n → left n m.new i (lo + result) ≡ 0) }
    ensures row_steps { RowSteps n m.old m.new }
{
    let most = (n - lo).min(8);
    let h = rows::find_pivots(m, n, w, lo, most);
    tables::fill_table(m, n, w, lo, h);
    tables::clear_rows(m, n, w, lo, h);
    h
}

// Makes the columns of the left half the identity's, up to the first for which there is no pivot, and answers how many are.
fn eliminate(m: &mut [u8], n: usize, w: usize) -> usize
    requires { (length m.old ≡ (n + 256) * w) × (w ≡ row_width n) × (n ≤ 4096) }
    ensures upper_bound { (result ≤ n) × Units n result (left n m.new) × (result < n → (i : ℕ) → result ≤ i → i < n → left n m.new i result ≡ 0) }
    ensures row_steps { RowSteps n m.old m.new }
{
    for b in 0..n.div_ceil(8) {
        let lo = 8 * b;
        let h = clear_byte(m, n, w, lo);
        if h < 8 {
            return lo + h;
        }
    }
    n
}

// Makes the right half of row i that of the identity, and leaves everything else of the rows below n.
fn unit_row(m: &mut [u8], n: usize, w: usize, i: usize)
    requires { (length m.old ≡ (n + 256) * w) × (w ≡ row_width n) × (n ≤ 4096) × (i < n) }
    ensures { (length m.new ≡ length m.old)
        × ((k j : ℕ) → k < n → j < 8 * row_bytes n → left n m.new k j ≡ left n m.old k j)
        × ((k j : ℕ) → k < n → j < 8 * row_bytes n → right n m.new k j ≡ cond (eqb k i) (identity k j) (right n m.old k j)) }
{
    let s = i * w + w / 2;
    let e = i * w + w;
    m[s..e].fill(0);
    m[s + i / 8] = 1 << (i % 8);
}

// Makes the right half the identity, and leaves the left half.
fn fill_identity(m: &mut [u8], n: usize, w: usize)
    requires { (length m.old ≡ (n + 256) * w) × (w ≡ row_width n) × (n ≤ 4096) }
    ensures { (length m.new ≡ length m.old)
        × ((i j : ℕ) → i < n → j < 8 * row_bytes n → left n m.new i j ≡ left n m.old i j)
        × ((i j : ℕ) → i < n → j < 8 * row_bytes n → right n m.new i j ≡ identity i j) }
{
    for i in 0..n {
        unit_row(m, n, w, i);
    }
}

// Inverts the matrix whose n rows stand in the left halves of the first n rows of m: the first column that is a sum of earlier ones, or n, and then
// the right halves hold the packed inverse. What m holds else is free before and afterwards; spare bits of the left halves are not read.
// The work is one step for each 32 of the n^3 products of entries, in bytes.
pub fn invert(m: &mut [u8], n: usize) -> usize
    requires { (0 < n) × (n ≤ 4096) × (length m.old ≡ (n + 256) * row_width n) }
    ensures value { result ≡ first_where n (dependent n (left n m.old)) }
    ensures c_after { result ≡ n → (i c : ℕ) → i < n → c < row_bytes n → get_or m.new (i * row_width n + (row_bytes n + c)) 0
        ≡ get_or (packed_matrix n (inverse_matrix n (left n m.old))) (i * row_bytes n + c) 0 }
    ensures m_len_unchanged { length m.new ≡ length m.old }
{
    let w = 2 * ((n + 7) / 8);
    fill_identity(m, n, w);
    eliminate(m, n, w)
}
