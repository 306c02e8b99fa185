// Writing the bits of a text that is judged, one bit a byte: what is read is known to be there, so nothing is refused.
//   fill_lines(text, at, n, area, out)       the lines of the blocks 1 to n, of `area` bits each
//   fill_groups(text, at, count, n, out)     the lines of the groups 1 to `count`, of twice n bits each
//
// The crate `text_frame_scan` judges a text. Each function reads at a position and answers the position after what it read; each goes once through
// its lines. A contract says by the walk over the format's items what is written and where the walk ends.
#![tactic(auto)]

ghost use Rattle.std.specs.Prelude.{◌≡◌, ◌∷◌, ◌++◌, ◌+◌, ◌*◌, ◌≤◌, ◌<◌, length, take, drop};
ghost use Rattle.staircase.specs.Design.{most-blocks};
ghost use Rattle.text_formats.specs.Format.{byte};
ghost use Rattle.text_formats.specs.Items.{bits, bits_line, bits_lines, past, values, Passes, walk};
ghost use Rattle.text.specs.FrameText.{group_line, group_lines};

// Writes the bits at a position into the lent slice, one bit a byte, and answers the position after them. The text is known to have them.
fn fill_bits(s: &[u8], at: usize, out: &mut [u8]) -> usize
    requires { Passes (walk (bits (length out.old)) s.now at) }
    ensures { past out.new result ≡ walk (bits (length out.old)) s.now at }
{
    let mut q = at;
    for b in out.iter_mut() {
        *b = s[q] - 48;
        q += 1;
    }
    q
}

// The same for a space and bits.
fn fill_part(s: &[u8], at: usize, out: &mut [u8]) -> usize
    requires { Passes (walk (byte 32 ∷ bits (length out.old)) s.now at) }
    ensures { past out.new result ≡ walk (byte 32 ∷ bits (length out.old)) s.now at }
{
    fill_bits(s, at + 1, out)
}

// The same for the line of block p.
fn fill_line(s: &[u8], at: usize, p: usize, out: &mut [u8]) -> usize
    requires { (p < 10000) × Passes (walk (bits_line (length out.old) p) s.now at) }
    ensures { past out.new result ≡ walk (bits_line (length out.old) p) s.now at }
{
    let i = text_items::number_is(s, at, p).unwrap();
    let e = fill_part(s, i, out);
    e + 1
}

// The same for the lines of the blocks 1 to n, of `area` bits each.
pub fn fill_lines(s: &[u8], at: usize, n: usize, area: usize, out: &mut [u8]) -> usize
    requires { (n ≤ most-blocks) × (length out.old ≡ n * area) × Passes (walk (bits_lines area 1 n) s.now at) }
    ensures { past out.new result ≡ walk (bits_lines area 1 n) s.now at }
{
    let mut q = at;
    // kept as an index loop: chunks_exact wants parts of at least one bit, which no contract here asks for
    for i in 0..n {
        let a = i * area;
        q = fill_line(s, q, i + 1, &mut out[a..a + area]);
    }
    q
}

// The same for a space and n bits, written from the place `from` of a longer slice on.
fn fill_half(s: &[u8], at: usize, n: usize, from: usize, out: &mut [u8]) -> usize
    requires { (from + n ≤ length out.old) × Passes (walk (byte 32 ∷ bits n) s.now at) }
    ensures result_value { past (values (walk (byte 32 ∷ bits n) s.now at)) result ≡ walk (byte 32 ∷ bits n) s.now at }
    ensures out_after { out.new ≡ take from out.old ++ (values (walk (byte 32 ∷ bits n) s.now at) ++ drop n (drop from out.old)) }
{
    fill_part(s, at, &mut out[from..from + n])
}

// The same for the line of group p: Y, then P, of n bits each.
fn fill_group(s: &[u8], at: usize, p: usize, n: usize, out: &mut [u8]) -> usize
    requires { (p < 10000) × (length out.old ≡ 2 * n) × Passes (walk (group_line n p) s.now at) }
    ensures { past out.new result ≡ walk (group_line n p) s.now at }
{
    let i = text_items::number_is(s, at, p).unwrap();
    let j = fill_half(s, i, n, 0, &mut out[..]);
    let e = fill_half(s, j, n, n, &mut out[..]);
    e + 1
}

// The same for the lines of the groups 1 to `count`.
pub fn fill_groups(s: &[u8], at: usize, count: usize, n: usize, out: &mut [u8]) -> usize
    requires { (count ≤ most-blocks) × (length out.old ≡ count * (2 * n)) × Passes (walk (group_lines n 1 count) s.now at) }
    ensures { past out.new result ≡ walk (group_lines n 1 count) s.now at }
{
    let mut q = at;
    // kept as an index loop: chunks_exact wants parts of at least one bit, which no contract here asks for
    for i in 0..count {
        let a = i * (2 * n);
        q = fill_group(s, q, i + 1, n, &mut out[a..a + 2 * n]);
    }
    q
}
