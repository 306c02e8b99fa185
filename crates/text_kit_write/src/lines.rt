// Writes the lines of a kit's text into a lent buffer, from a position on, where the caller has shown that there is room, and answers the position
// after them.
//   put_three      a line of three numbers
//   put_head       the two lines of a design, and `place self parity`
//   put_pairs      the lines of the lists
//   put_rows       the lines of the inverse
//   put_kit        the whole text
//
// A row of the inverse is written column by column, one step each: this loop is nearly all of the work.
ghost use Rattle.std.specs.Prelude.{◌≡◌, ◌++◌, ◌+◌, ◌*◌, ◌/◌, ◌%◌, ◌^◌, ◌≤◌, ◌<◌, length, get_or};
ghost use Rattle.std.proofs.lemmas.List.Edits.{sets};
ghost use Rattle.staircase.specs.Design.{most-order};
ghost use Rattle.staircase.specs.Demand2.{FitsOrder};
ghost use Rattle.staircase.specs.Lists.{tabulate};
ghost use Rattle.staircase.specs.System.{row_bytes};
ghost use Rattle.design.specs.Answers.{Allowed};
ghost use Rattle.design.specs.Sizes.{order_of};
ghost use Rattle.text.specs.KitText.{head_bytes, list_names, kit_bytes};
ghost use Rattle.text.specs.KitSpelled.{three_text, pairs_text, row_text, rows_text};

use design::Design;

// A line of three numbers, for which there is room.
fn put_three(out: &mut [u8], at: usize, a: u64, b: u64, c: u64) -> usize
    requires { at + length (three_text a b c) ≤ length out.old }
    ensures value { result ≡ at + length (three_text a b c) }
    ensures out_after { out.new ≡ sets out.old at (three_text a b c) }
{
    let i = text_lines::put_field(out, at, a, 32);
    let j = text_lines::put_field(out, i, b, 32);
    text_lines::put_field(out, j, c, 10)
}

// The two lines of a design and the names of the lists' lines, for which there is room.
fn put_head(out: &mut [u8], at: usize, m: u64, t: u64, size: u64) -> usize
    requires { at + length (head_bytes m t size ++ list_names) ≤ length out.old }
    ensures value { result ≡ at + length (head_bytes m t size ++ list_names) }
    ensures out_after { out.new ≡ sets out.old at (head_bytes m t size ++ list_names) }
{
    let i = text_lines::put_bytes(out, at, b"m t M\n");
    let j = put_three(out, i, m, t, size);
    text_lines::put_bytes(out, j, b"place self parity\n")
}

// The lines of two lists of n entries each, for which there is room.
fn put_pairs(out: &mut [u8], at: usize, n: usize, own: &[u8], parity: &[u8]) -> usize
    requires own_len { (length own.now ≡ 2 * n) × (length parity.now ≡ 2 * n) × (n ≤ most-order) }
    requires parity_in_bounds { at + length (pairs_text n own.now parity.now) ≤ length out.old }
    ensures value { result ≡ at + length (pairs_text n own.now parity.now) }
    ensures out_after { out.new ≡ sets out.old at (pairs_text n own.now parity.now) }
{
    let mut q = at;
    for p in 0..n {
        let a = rules::entry(own, p);
        let b = rules::entry(parity, p);
        q = put_three(out, q, p as u64, a as u64, b as u64);
    }
    q
}

// The characters of n columns of a packed row that starts at byte `from`, for which there is room. One step for each.
fn put_columns(out: &mut [u8], at: usize, n: usize, from: usize, inverse: &[u8]) -> usize
    requires n_in_bounds { at + n ≤ length out.old }
    requires n_in_bounds_2 { from + row_bytes n ≤ length inverse.now }
    ensures value { result ≡ at + n }
    ensures out_after { out.new
        ≡ sets out.old at (tabulate n (λ j. 48 + get_or inverse.now (from + j / 8) 0 / 2 ^ (j % 8) % 2)) }
{
    for j in 0..n {
        out[at + j] = 48 + (inverse[from + j / 8] >> (j % 8)) % 2;
    }
    at + n
}

// The line of a row of the inverse, of n rows and columns, for which there is room.
fn put_row(out: &mut [u8], at: usize, n: usize, row: usize, inverse: &[u8]) -> usize
    requires inverse_len { (length inverse.now ≡ n * row_bytes n) × (n ≤ most-order) × (row < n) }
    requires row_in_bounds { at + length (row_text n inverse.now row) ≤ length out.old }
    ensures value { result ≡ at + length (row_text n inverse.now row) }
    ensures out_after { out.new ≡ sets out.old at (row_text n inverse.now row) }
{
    let width = (n + 7) / 8;
    let i = text_lines::put_field(out, at, row as u64, 32);
    let j = put_columns(out, i, n, row * width, inverse);
    text_lines::put_byte(out, j, 10)
}

// The lines of the inverse, of n rows and columns, for which there is room.
fn put_rows(out: &mut [u8], at: usize, n: usize, inverse: &[u8]) -> usize
    requires inverse_len { (length inverse.now ≡ n * row_bytes n) × (n ≤ most-order) }
    requires inverse_in_bounds { at + length (rows_text n inverse.now) ≤ length out.old }
    ensures value { result ≡ at + length (rows_text n inverse.now) }
    ensures out_after { out.new ≡ sets out.old at (rows_text n inverse.now) }
{
    let mut q = at;
    for i in 0..n {
        q = put_row(out, q, n, i, inverse);
    }
    q
}

// Makes a buffer of the text's length the text of a kit.
pub fn put_kit(d: Design, own: &[u8], parity: &[u8], inverse: &[u8], text: &mut [u8])
    requires allowed { Allowed d × FitsOrder (order_of d) own.now parity.now inverse.now }
    requires text_len { length text.old ≡ length (kit_bytes d.m d.t d.size own.now parity.now inverse.now) }
    ensures { text.new ≡ kit_bytes d.m d.t d.size own.now parity.now inverse.now }
{
    let n = d.order();
    let i = put_head(text, 0, d.m() as u64, d.t() as u64, d.size() as u64);
    let j = put_pairs(text, i, n, own, parity);
    let k = text_lines::put_bytes(text, j, b"row inverse\n");
    put_rows(text, k, n, inverse);
}
