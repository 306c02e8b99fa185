// Rows of the system A, packed, one at a time. A row has at most 2 r ones.
//   fill_preimages   the inverse of a permutation
//   preimage_of    the place that a list sends to a row
//   system_row     one packed row of A
//
// A bit of Y is a bit of one column word and, through the self list, of one row word. What it adds to the r parity bits of either word is the power
// of x that its position carries. So a row of A takes a digit of each of the r powers of either: those of its column word side by side, those of its row word
// where the self list sends them. Nothing of A is kept.
#![tactic(auto)]

ghost use Rattle.std.specs.Prelude.{◌≡◌, ℕ, ◌+◌, ◌*◌, ◌-◌, ◌/◌, ◌%◌, ◌≤◌, ◌<◌, length, get_or};
ghost use Rattle.staircase.specs.Design.{most-order};
ghost use Rattle.staircase.specs.System.{preimage};
ghost use Rattle.staircase.specs.Rules.{entries};
ghost use Rattle.staircase.specs.Demand2.{Permutes};
ghost use Rattle.matrix.specs.Packed.{packed_bit};
ghost use Rattle.kit_system.specs.Rows.{stack_of, unstack_of, power_digit, row_entry};

// Fills `out` with the inverse of a list of n entries that is a permutation: entry q is the place that the list sends to q.
pub fn fill_preimages(list: &[u8], n: usize, out: &mut [u16])
    requires { (length list.now ≡ 2 * n) × (length out.old ≡ n) × (n ≤ most-order) × Permutes n (λ p. get_or (entries n list.now) p 0) }
    ensures { (length out.new ≡ n)
        × ((q : ℕ) → q < n → get_or out.new q 0 ≡ preimage (entries n list.now) n q) }
{
    for p in 0..n {
        let e = rules::entry(list, p);
        out[e] = p as u16;
    }
}

// The place that a list sends to row e, from the places of the list's inverse.
pub fn preimage_of(preimages: &[u16], size: usize, r: usize, e: usize) -> usize
    requires { (length preimages.now ≡ size * r) × (size * r ≤ most-order) × (e < size * r) × ((q : ℕ) → q < size * r → get_or preimages.now q 0 < size * r) }
    ensures { (result ≡ get_or preimages.now (unstack_of size r e) 0) × (result < size * r) }
{
    usize::from(preimages[e % r * size + e / r])
}

// Digit a of power b, the highest first: what bit b of X or Y adds to bit a of the parity.
fn digit_at(part: &[u32], b: usize, a: usize) -> u8
    requires { (length part.now ≤ 32) × (b < length part.now) × (a < length part.now) }
    ensures { (result ≡ power_digit part.now b a) × (result < 2) }
{
    ((part[b] >> (part.len() - 1 - a)) % 2) as u8
}

// Where the list sends place b × size + a, as an entry of the stack.
fn sent(list: &[u8], n: usize, size: usize, r: usize, b: usize, a: usize) -> usize
    requires { (n ≡ size * r) × (b < r) × (a < size) × (length list.now ≡ 2 * n) × (n ≤ most-order)
        × ((q : ℕ) → q < n → get_or (entries n list.now) q 0 < n) }
    ensures { (result ≡ stack_of size r (get_or (entries n list.now) (b * size + a) 0)) × (result < n) }
{
    let y = rules::entry(list, b * size + a);
    y % size * r + y / size
}

// Makes `out` row e of A, for the powers of column words and of row words, the self list and the place p that the parity list sends to entry e. The work grows with r and the bytes of `out`.
pub fn system_row(
    out: &mut [u8],
    own: &[u8],
    n: usize,
    columns: &[u32],
    part: &[u32],
    size: usize,
    p: usize,
    e: usize,
)
    requires { (n ≡ size * length part.now) × (e < n) × (p < n) × (length own.now ≡ 2 * n) × (n ≤ 8 * length out.old) × (length out.old ≤ 512)
        × (length part.now ≤ 32) × (length columns.now ≡ length part.now) × ((q : ℕ) → q < n → get_or (entries n own.now) q 0 < n) }
    ensures { (length out.new ≡ length out.old)
        × ((k : ℕ) → packed_bit out.new k ≡ row_entry columns.now part.now (entries n own.now) size p e k) }
{
    let r = part.len();
    out.fill(0);
    for b in 0..r {
        let v = digit_at(columns, b, e % r);
        matrix::add_bit(out, e / r * r + b, v);
        let w = digit_at(part, b, p / size);
        let k = sent(own, n, size, r, b, p % size);
        matrix::add_bit(out, k, w);
    }
}
