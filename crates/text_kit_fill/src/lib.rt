// Writing the lists and the inverse of a kit text that is judged: what is read is known to be there, so nothing is refused.
//   fill_lists(text, at, n, own, parity)   both lists, from their lines
//   fill_inverse(text, at, n, inverse)     the inverse, from its lines
//
// The crate `text_kit_scan` judges a text and answers the positions of the lines. specs/Bytes.antt says what bytes the values of the lines make. Each
// function goes once through its lines and writes each byte once.
#![tactic(auto)]

ghost use Rattle.std.specs.Prelude.{◌≡◌, [], ◌∷◌, ◌+◌, ◌*◌, ◌/◌, ◌%◌, ◌≤◌, ◌<◌, length, take, drop};
ghost use Rattle.std.proofs.lemmas.List.Edits.{sets};
ghost use Rattle.text_formats.specs.Items.{walk, values, Passes, bits_line, bits_lines};
ghost use Rattle.text_items.specs.Answers.{step_of};
ghost use Rattle.staircase.specs.Design.{most-order};
ghost use Rattle.staircase.specs.System.{row_bytes};
ghost use Rattle.text.specs.KitText.{pair_lines};
ghost use Rattle.text_kit_fill.specs.Bytes.{lows};
ghost use Rattle.text.specs.KitReader.{firsts, seconds, packs, binary, pack, pack_rows};

// Entry p of a list: "two bytes an entry, low byte first".
fn put_entry(list: &mut [u8], p: usize, v: usize)
    requires { 2 * p + 2 ≤ length list.old }
    ensures { list.new ≡ sets list.old (2 * p) ((v % 256) ∷ (v / 256 % 256) ∷ []) }
{
    list[2 * p] = (v % 256) as u8;
    list[2 * p + 1] = (v / 256 % 256) as u8;
}

// Fills both lists from their lines, which are right.
pub fn fill_lists(s: &[u8], at: usize, n: usize, own: &mut [u8], parity: &mut [u8])
    requires n_le_most_order { n ≤ most-order }
    requires passes { Passes (walk (pair_lines 0 n) s.now at) }
    requires own_len { length own.old ≡ 2 * n }
    requires parity_len { length parity.old ≡ 2 * n }
    ensures own_after { own.new ≡ packs (firsts (values (walk (pair_lines 0 n) s.now at))) }
    ensures parity_after { parity.new ≡ packs (seconds (values (walk (pair_lines 0 n) s.now at))) }
{
    let mut q = at;
    for p in 0..n {
        let (a, b, e) = text_kit_scan::pair_line(s, q, p).unwrap();
        put_entry(own, p, a);
        put_entry(parity, p, b);
        q = e;
    }
}

// The byte of up to eight bit characters: "column j is bit j mod 8".
fn gather(s: &[u8], at: usize, c: usize) -> usize
    requires c_bound { c ≤ 8 }
    requires c_in_bounds { at + c ≤ length s.now }
    ensures { result ≡ binary (lows (take c (drop at s.now))) }
{
    let mut v: usize = 0;
    for k in (0..c).rev() {
        let b = usize::from(s[at + k] % 2);
        v = v * 2 + b;
    }
    v
}

// Packs n bit characters into bytes from a position of `out` on.
fn pack_row(s: &[u8], at: usize, n: usize, out: &mut [u8], from: usize)
    requires n_in_bounds { at + n ≤ length s.now }
    requires n_in_bounds_2 { from + row_bytes n ≤ length out.old }
    ensures { out.new ≡ sets out.old from (pack (row_bytes n) (lows (take n (drop at s.now)))) }
{
    let w = (n + 7) / 8;
    for b in 0..w {
        let c = (n - b * 8).min(8);
        let v = gather(s, at + b * 8, c);
        out[from + b] = (v % 256) as u8;
    }
}

// Packs the bits of the line of row p, which is right, into bytes from a position of `out` on, and answers the position after the line.
fn fill_row(s: &[u8], at: usize, n: usize, p: usize, out: &mut [u8], from: usize) -> usize
    requires p_bound { p < 10000 }
    requires passes { Passes (walk (bits_line n p) s.now at) }
    requires n_in_bounds { from + row_bytes n ≤ length out.old }
    ensures result_value { Ok result ≡ step_of (walk (bits_line n p) s.now at) }
    ensures out_after { out.new ≡ sets out.old from (pack (row_bytes n) (values (walk (bits_line n p) s.now at))) }
{
    let i = text_items::number_is(s, at, p).unwrap();
    let first = i + 1;
    pack_row(s, first, n, out, from);
    first + n + 1
}

// Fills the inverse from its lines, which are right.
pub fn fill_inverse(s: &[u8], at: usize, n: usize, inverse: &mut [u8])
    requires n_le_most_order { n ≤ most-order }
    requires passes { Passes (walk (bits_lines n 0 n) s.now at) }
    requires inverse_len { length inverse.old ≡ n * row_bytes n }
    ensures { inverse.new ≡ pack_rows n n (values (walk (bits_lines n 0 n) s.now at)) }
{
    let w = (n + 7) / 8;
    let mut q = at;
    for p in 0..n {
        q = fill_row(s, q, n, p, inverse, p * w);
    }
}
