// Clears columns by a table of sums, which stands in the last 256 rows of the matrix.
//   fill_table   the sums of up to eight rows, by the digits of the row's number in the table
//   clear_rows   every row but those takes the sum that one of its bytes names
//
// A row has w bytes. Every function leaves the length of what it is lent as it is.
ghost use Rattle.std.specs.Prelude.{◌≡◌, ℕ, ◌+◌, ◌*◌, ◌%◌, ◌^◌, ◌≤◌, ◌<◌, length};
ghost use Rattle.staircase.specs.Square.{cleared_entry};
ghost use Rattle.matrix_elimination.specs.Steps.{row_width, bit_at, TableOf};
ghost use Rattle.matrix_elimination.specs.Cleared.{RowsCleared};

// Doubles a table of the sums of p rows from lo on, s = 2^p of them, by the sums with row lo + p. The rows below n stay.
fn double(m: &mut [u8], n: usize, w: usize, lo: usize, p: usize, s: usize)
    requires { (length m.old ≡ (n + 256) * w) × (w ≡ row_width n) × (n ≤ 4096) × (s ≡ 2 ^ p) × (s ≤ 128) × (lo + p < n)
        × TableOf n m.old lo p }
    ensures { (length m.new ≡ length m.old) × TableOf n m.new lo (p + 1)
        × ((i j : ℕ) → i < n → j < 8 * w → bit_at m.new w i j ≡ bit_at m.old w i j) }
{
    for x in 0..s {
        crate::rows::sum_row(m, n + 256, w, n + s + x, n + x, lo + p);
    }
}

// Fills the table with the sums of the h rows from lo on, by the digits of the row's number: 2^h of its rows. The rows below n stay.
pub fn fill_table(m: &mut [u8], n: usize, w: usize, lo: usize, h: usize)
    requires { (length m.old ≡ (n + 256) * w) × (w ≡ row_width n) × (n ≤ 4096) × (h ≤ 8) × (lo + h ≤ n) }
    ensures { (length m.new ≡ length m.old) × TableOf n m.new lo h
        × ((i j : ℕ) → i < n → j < 8 * w → bit_at m.new w i j ≡ bit_at m.old w i j) }
{
    let t = n * w;
    let e = t + w;
    m[t..e].fill(0);
    let mut s: usize = 1;
    for p in 0..h {
        double(m, n, w, lo, p, s);
        s *= 2;
    }
}

// The number of the first h bits of a byte.
fn first_bits(x: u8, h: usize) -> usize
    requires { h ≤ 8 }
    ensures { (result ≡ x % 2 ^ h) × (result < 256) }
{
    usize::from(x) & ((1 << h) - 1)
}

// Row i takes the row of the table that the first h bits of its byte b name.
fn clear_row(m: &mut [u8], n: usize, w: usize, i: usize, b: usize, h: usize)
    requires { (length m.old ≡ (n + 256) * w) × (w ≤ 1024) × (n ≤ 4096) × (i < n) × (b < w) × (h ≤ 8) }
    ensures { RowsCleared n w b h i (i + 1) m.old m.new }
{
    let x = first_bits(m[i * w + b], h);
    crate::rows::add_row(m, n + 256, w, i, n + x);
}

// Each row from `from` to `to` takes the row of the table that the first h bits of its byte b name.
fn clear_part(m: &mut [u8], n: usize, w: usize, from: usize, to: usize, b: usize, h: usize)
    requires { (length m.old ≡ (n + 256) * w) × (w ≤ 1024) × (n ≤ 4096) × (from ≤ to) × (to ≤ n) × (b < w) × (h ≤ 8) }
    ensures { RowsCleared n w b h from to m.old m.new }
{
    for i in from..to {
        clear_row(m, n, w, i, b, h);
    }
}

// Every row below n but the h from lo on takes the row of the table that its bits in the columns lo to lo + h name.
pub fn clear_rows(m: &mut [u8], n: usize, w: usize, lo: usize, h: usize)
    requires { (length m.old ≡ (n + 256) * w) × (w ≡ row_width n) × (n ≤ 4096) × (lo % 8 ≡ 0) × (h ≤ 8) × (lo + h ≤ n)
        × (lo < n) × TableOf n m.old lo h }
    ensures { (length m.new ≡ length m.old)
        × ((i j : ℕ) → i < n → j < 8 * w → bit_at m.new w i j
        ≡ cleared_entry lo h (bit_at m.old w) (bit_at m.old w) i j) }
{
    let b = lo / 8;
    clear_part(m, n, w, 0, lo, b, h);
    clear_part(m, n, w, lo + h, n, b, h);
}
