// The first wrong entry of the product A W of rule 9.
//   first_wrong(own, parity, n, columns, part, size, t)   its place, row by row
//
// Each entry of A W is the parity of the count of ones of masked bytes. A row of A has at most 2 r ones, so it is packed on its own and only its
// non-zero bytes are used: each masks all n columns of W at once, from the planes of W's rows. The work grows with n² r, n being M × r.
ghost use Rattle.std.specs.Prelude.{◌≡◌, ℕ, ◌*◌, ◌/◌, ◌%◌, ◌≤◌, ◌<◌, length, get_or};
ghost use Rattle.staircase.specs.Lists.{first_where};
ghost use Rattle.staircase.specs.Design.{most-order};
ghost use Rattle.staircase.specs.System.{row_bytes};
ghost use Rattle.staircase.specs.Rules.{entries};
ghost use Rattle.matrix.specs.Packed.{packed_bit};
ghost use Rattle.kit_system.specs.Rows.{unstack_of, row_entry};
ghost use Rattle.kit_inverse.specs.Products.{Side, wrong_in, product_wrong};

// The first wrong entry of row e of a product, or n, for the packed row of one factor and the planes of the other.
fn first_in_packed(row: &[u8], t: &[u8], n: usize, e: usize) -> usize
    requires { (0 < n) × (n ≤ most-order) × (length row.now ≡ row_bytes n) × (length t.now ≡ n * row_bytes n)
        × ((k : ℕ) → n ≤ k → packed_bit row.now k ≡ 0) }
    ensures { result ≡ first_where n (wrong_in (packed_bit row.now) t.now n e) }
{
    let mut acc = [0u8; 4096];
    matrix::mask_rows(&mut acc[0..n], row, t, n);
    matrix::first_wrong(&acc[0..n], e)
}

// The first wrong entry of row e of A W, or n, where the parity list sends place p to entry e.
fn first_in_row(
    own: &[u8],
    n: usize,
    columns: &[u32],
    part: &[u32],
    size: usize,
    t: &[u8],
    p: usize,
    e: usize,
) -> usize
    requires { Side n size own.now columns.now part.now t.now × (e < n) × (p < n) }
    ensures { result ≡ first_where n (wrong_in (row_entry columns.now part.now (entries n own.now) size p e) t.now n e) }
{
    let rb = (n + 7) / 8;
    let mut row = [0u8; 512];
    kit_system::system_row(&mut row[0..rb], own, n, columns, part, size, p, e);
    first_in_packed(&row[0..rb], t, n, e)
}

// The place of the first wrong entry of A W, row by row, or n²: `preimages` is the inverse of the parity list.
fn first_in_rows(
    own: &[u8],
    n: usize,
    columns: &[u32],
    part: &[u32],
    size: usize,
    t: &[u8],
    preimages: &[u16],
) -> usize
    requires { Side n size own.now columns.now part.now t.now × (length preimages.now ≡ n) × ((q : ℕ) → q < n → get_or preimages.now q 0 < n) }
    ensures { result ≡ first_where (n * n) (λ i. wrong_in (row_entry columns.now part.now (entries n own.now) size
        (get_or preimages.now (unstack_of size (length part.now) (i / n)) 0) (i / n)) t.now n (i / n) (i % n)) }
{
    for e in 0..n {
        let p = kit_system::preimage_of(preimages, size, part.len(), e);
        let x = first_in_row(own, n, columns, part, size, t, p, e);
        if x < n {
            return e * n + x;
        }
    }
    n * n
}

// The place of the first wrong entry of A W, or n². The planes t are those of W's rows.
pub fn first_wrong(
    own: &[u8],
    parity: &[u8],
    n: usize,
    columns: &[u32],
    part: &[u32],
    size: usize,
    t: &[u8],
) -> usize
    requires { Side n size own.now columns.now part.now t.now × Side n size parity.now columns.now part.now t.now }
    ensures { result ≡ first_where (n * n) (λ i. product_wrong columns.now part.now (entries n own.now) (entries n parity.now)
        size t.now n (i / n) (i % n)) }
{
    let mut preimages = [0u16; 4096];
    kit_system::fill_preimages(parity, n, &mut preimages[0..n]);
    first_in_rows(own, n, columns, part, size, t, &preimages[0..n])
}
