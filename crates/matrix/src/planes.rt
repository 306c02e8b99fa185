// Lays a packed square matrix of bits out in planes.
//   planes_of_rows(w, n, t)   eight rows a byte: plane b has a byte for each column, with the entries of the rows 8 b to 8 b + 7 in it
//
// A matrix comes into planes by blocks of eight rows and eight columns, 64 bits in one number, which three exchanges of bits transpose
// (H. Warren, "Hacker's Delight", section 7-3). The crate `matrix` says what planes are for.
//
// n is the order, 1 to 4,096, and a packed row has row_bytes n bytes. Every function leaves the lengths of what it is lent as they are.
ghost use Rattle.std.specs.Prelude.{◌≡◌, cond, ℕ, ◌+◌, ◌*◌, ◌/◌, ◌%◌, ◌^◌, ◌≤◌, ◌<◌, ltb, length, get_or};
ghost use Rattle.staircase.specs.Design.{most-order};
ghost use Rattle.staircase.specs.System.{row_bytes};
ghost use Rattle.matrix.specs.Packed.{Planes, padded_entry};

// Byte c of row i of w, of n rows of rb bytes; 0 past the last row.
fn byte_at(w: &[u8], n: usize, rb: usize, i: usize, c: usize) -> u8
    requires { (length w.now ≡ n * rb) × (c < rb) }
    ensures { result ≡ cond (ltb i n) (get_or w.now (i * rb + c) 0) 0 }
{
    if i < n { w[i * rb + c] } else { 0 }
}

// The block of the rows from 8 b and the columns from 8 c, a byte a row, the first row lowest.
fn block_at(w: &[u8], n: usize, rb: usize, b: usize, c: usize) -> u64
    requires { (rb ≡ row_bytes n) × (rb ≤ 512) × (length w.now ≡ n * rb) × (b < rb) × (c < rb) }
    ensures { (r s : ℕ) → r < 8 → s < 8 → result / 2 ^ (8 * r + s) % 2 ≡ padded_entry w.now n (8 * b + r) (8 * c + s) }
{
    let mut q: u64 = 0;
    for r in 0..8 {
        let v = byte_at(w, n, rb, 8 * b + r, c);
        q ^= u64::from(v) << (8 * r);
    }
    q
}

// A block with rows for columns. In its squares of two, of four and of eight rows the two quarters off the diagonal change places.
pub fn transpose_block(x: u64) -> u64
    ensures { (r s : ℕ) → r < 8 → s < 8 → result / 2 ^ (8 * s + r) % 2 ≡ x / 2 ^ (8 * r + s) % 2 }
{
    let a = (x ^ (x >> 7)) & 0x00AA00AA00AA00AA;
    let y = x ^ a ^ (a << 7);
    let b = (y ^ (y >> 14)) & 0x0000CCCC0000CCCC;
    let z = y ^ b ^ (b << 14);
    let c = (z ^ (z >> 28)) & 0x00000000F0F0F0F0;
    z ^ c ^ (c << 28)
}

// The end of the columns from x that one block has, of n.
fn block_end(x: usize, n: usize) -> usize
    requires { (x < n) × (n ≤ most-order) }
    ensures { (x ≤ result) × (result ≤ n) × (result ≤ x + 8) × ((y : ℕ) → y < x + 8 → y < n → y < result) }
{
    n.min(x + 8)
}

// The bytes of a block, the lowest first, as many as the part has.
fn put_block(part: &mut [u8], q: u64)
    requires { length part.old ≤ 8 }
    ensures { (length part.new ≡ length part.old)
        × ((s : ℕ) → s < length part.old → (r : ℕ) → r < 8
        → get_or part.new s 0 / 2 ^ r % 2 ≡ q / 2 ^ (8 * s + r) % 2) }
{
    for (s, byte) in part.iter_mut().enumerate() {
        *byte = ((q >> (8 * s)) % 256) as u8;
    }
}

// Plane b of the rows of w: a byte for each column, with the entries of the rows 8 b to 8 b + 7.
fn plane_of_rows(plane: &mut [u8], w: &[u8], n: usize, rb: usize, b: usize)
    requires { (n ≤ most-order) × (length plane.old ≡ n) × (rb ≡ row_bytes n) × (length w.now ≡ n * rb) × (b < rb) }
    ensures { (length plane.new ≡ length plane.old)
        × ((x : ℕ) → x < n → (r : ℕ) → r < 8
        → get_or plane.new x 0 / 2 ^ r % 2 ≡ padded_entry w.now n (8 * b + r) x) }
{
    for c in 0..rb {
        let q = transpose_block(block_at(w, n, rb, b, c));
        let x = 8 * c;
        let e = block_end(x, n);
        put_block(&mut plane[x..e], q);
    }
}

// Lays the packed matrix w, of n rows and n columns, out in the lent planes t: its rows are their rows, and the rows from n on are 0. Each byte of w
// is read and each of t written once.
pub fn planes_of_rows(w: &[u8], n: usize, t: &mut [u8])
    requires { (1 ≤ n) × (n ≤ most-order) × (length w.now ≡ n * row_bytes n) × (length t.old ≡ n * row_bytes n) }
    ensures { (length t.new ≡ length t.old)
        × Planes t.new n (padded_entry w.now n) }
{
    let rb = (n + 7) / 8;
    for b in 0..rb {
        let a = b * n;
        let e = a + n;
        plane_of_rows(&mut t[a..e], w, n, rb, b);
    }
}
