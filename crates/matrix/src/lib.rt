// Products of square matrices of bits in packed bytes.
//   add_bit       adds a bit to a packed row
//   mask_rows     a row of a product, from a packed row and planes
//   first_wrong   the first entry of such a row that is not the identity's
//
// "An entry of a product is 1 exactly when a row and a column share an odd number of ones": the ones of masked bytes. The masked bytes are added
// by exclusive or and the ones of the sum are counted once, which leaves the parity as it is and costs a fraction of a count at each byte.
//
// A row of entries is made at a time. Planes hold the right factor with eight rows a byte: plane b has a byte for each column x, with the entries
// of the rows 8 b to 8 b + 7 in it. So byte b of the packed row masks plane b, in all columns at once and along bytes that lie side by side, and
// a byte that is 0 masks to nothing and is passed over: a row costs n for each of its bytes that are not 0.
//
// The entries of a row are judged in one pass without a jump, which the compiler makes of steps of 16 bytes: the ones of every byte are counted by
// additions of neighbouring bits, and the counts' low bits gathered. Only a row that has a wrong entry is searched for its place.
//
// The module `planes` brings a packed matrix into planes.
//
// n is the order, 1 to 4,096, and a packed row has row_bytes n bytes. Every function leaves the lengths of what it is lent as they are.
#![tactic(auto)]

mod planes;
mod tiles;

ghost use Rattle.std.specs.Prelude.{◌≡◌, cond, not, ℕ, ◌*◌, ◌/◌, ◌%◌, ◌≤◌, ◌<◌, eqb, ltb, length, get_or};
ghost use Rattle.std.specs.Int.Bits.{bit_and, bit_xor};
ghost use Rattle.std.specs.Int.Count.{ones};
ghost use Rattle.staircase.specs.Lists.{bit_sum, sum_bits, first_where};
ghost use Rattle.staircase.specs.Design.{most-order};
ghost use Rattle.staircase.specs.System.{row_bytes, identity};
ghost use Rattle.matrix.specs.Packed.{packed_bit, plane_bit};

pub use planes::planes_of_rows;
pub use tiles::turn;

// Adds the bit v to bit k of the lent packed row. A fixed number of steps.
pub fn add_bit(row: &mut [u8], k: usize, v: u8)
    requires { (k / 8 < length row.old) × (v < 2) }
    ensures { (length row.new ≡ length row.old)
        × ((j : ℕ) → packed_bit row.new j ≡ bit_sum (packed_bit row.old j) (cond (eqb k j) v 0)) }
{
    let b = k / 8;
    row[b] ^= v << (k % 8);
}

// Adds to each byte of acc, by exclusive or, the byte of the plane masked by v. The work grows with the number of bytes.
fn mask_in(acc: &mut [u8], plane: &[u8], v: u8)
    requires { length acc.old ≡ length plane.now }
    ensures { (length acc.new ≡ length acc.old)
        × ((x : ℕ) → x < length acc.old
        → get_or acc.new x 0 ≡ bit_xor (get_or acc.old x 0) (bit_and (get_or plane.now x 0) v)) }
{
    for (x, byte) in acc.iter_mut().enumerate() {
        *byte ^= plane[x] & v;
    }
}

// Leaves in acc a byte for each column, with an odd number of ones where the packed row and that column of the planes t share an odd number of
// ones: a row of a product. What acc held is lost. The work grows with n for each byte of the row that is not 0.
pub fn mask_rows(acc: &mut [u8], row: &[u8], t: &[u8], n: usize)
    requires { (1 ≤ n) × (n ≤ most-order) × (length acc.old ≡ n) × (length row.now ≡ row_bytes n)
        × (length t.now ≡ n * row_bytes n) }
    ensures { (length acc.new ≡ length acc.old)
        × ((x : ℕ) → x < n
        → ones (get_or acc.new x 0) % 2
        ≡ sum_bits (8 * row_bytes n) (λ k. packed_bit row.now k * plane_bit t.now n k x)) }
{
    acc.fill(0);
    for (b, &v) in row.iter().enumerate() {
        if v != 0 {
            let a = b * n;
            let e = a + n;
            mask_in(acc, &t[a..e], v);
        }
    }
}

// Entry (i, j) of the identity.
fn identity_entry(i: usize, j: usize) -> u32
    ensures { result ≡ identity i j }
{
    u32::from(i == j)
}

// The ones of a byte, counted by additions of neighbouring bits: each two bits become their sum, then each four, then all eight (H. Warren, "Hacker's
// Delight", section 5-1). A fixed number of steps.
pub fn ones_of(v: u8) -> u8
    ensures { result ≡ ones v }
{
    let pairs = v - ((v >> 1) & 0x55);
    let fours = (pairs & 0x33) + ((pairs >> 2) & 0x33);
    (fours + (fours >> 4)) % 16
}

// Whether some byte has an odd number of ones. One pass without a jump, over all of them.
fn some_odd(bytes: &[u8]) -> bool
    ensures { result ≡ ltb (first_where (length bytes.now) (λ x. eqb (ones (get_or bytes.now x 0) % 2) 1)) (length bytes.now) }
{
    let mut all: u8 = 0;
    for &byte in bytes {
        all |= ones_of(byte);
    }
    all % 2 == 1
}

// Whether some column's byte has a parity that is not entry (e, x) of the identity. Reads each byte once at most.
fn some_wrong(acc: &[u8], e: usize) -> bool
    ensures { result ≡ ltb (first_where (length acc.now) (λ x. not (eqb (ones (get_or acc.now x 0) % 2) (identity e x))))
        (length acc.now) }
{
    let n = acc.len();
    if n <= e {
        return some_odd(acc);
    }
    ones_of(acc[e]) % 2 == 0 || some_odd(&acc[0..e]) || some_odd(&acc[e + 1..n])
}

// What `first_wrong` finds, by a search from column to column up to it.
fn search_wrong(acc: &[u8], e: usize) -> usize
    ensures { result ≡ first_where (length acc.now) (λ x. not (eqb (ones (get_or acc.now x 0) % 2) (identity e x))) }
{
    for (x, &byte) in acc.iter().enumerate() {
        let odd = byte.count_ones() % 2;
        if odd != identity_entry(e, x) {
            return x;
        }
    }
    acc.len()
}

// The first column whose byte's parity is not entry (e, x) of the identity; the number of bytes where there is none. Reads acc alone, once where
// nothing is wrong.
pub fn first_wrong(acc: &[u8], e: usize) -> usize
    ensures { result ≡ first_where (length acc.now) (λ x. not (eqb (ones (get_or acc.now x 0) % 2) (identity e x))) }
{
    if some_wrong(acc, e) {
        search_wrong(acc, e)
    } else {
        acc.len()
    }
}
