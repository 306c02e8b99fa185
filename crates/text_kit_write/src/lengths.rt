// The length of a kit's text.
//   kit_length     of a design and its lists
//
// Each number counts with its digits. An entry has two bytes and so at most five digits, and a list at most 4,096 entries, so all sums are small.
ghost use Rattle.std.specs.Prelude.{◌≡◌, [], ◌*◌, ◌≤◌, length};
ghost use Rattle.staircase.specs.Design.{most-order};
ghost use Rattle.design.specs.Answers.{Allowed};
ghost use Rattle.design.specs.Sizes.{order_of};
ghost use Rattle.text.specs.KitSpelled.{three_text, pairs_text, rows_text};
ghost use Rattle.text.specs.KitWriter.{text_length};

use design::Design;

// The length of a line of three numbers.
fn three_length(a: u64, b: u64, c: u64) -> usize
    ensures { (result ≡ length (three_text a b c)) × (result ≤ 63) }
{
    text_lines::digits(a) + text_lines::digits(b) + text_lines::digits(c) + 3
}

// The length of the lines of two lists of n entries each. A few steps for each digit.
fn pairs_length(n: usize, own: &[u8], parity: &[u8]) -> usize
    requires { (length own.now ≡ 2 * n) × (length parity.now ≡ 2 * n) × (n ≤ most-order) }
    ensures { (result ≡ length (pairs_text n own.now parity.now)) × (result ≤ 63 * most-order) }
{
    let mut sum: usize = 0;
    for p in 0..n {
        let a = rules::entry(own, p);
        let b = rules::entry(parity, p);
        sum += three_length(p as u64, a as u64, b as u64);
    }
    sum
}

// The length of the lines of an inverse of n rows and columns.
fn rows_length(n: usize) -> usize
    requires { n ≤ most-order }
    ensures { (result ≡ length (rows_text n [])) × (result ≤ 4118 * most-order) }
{
    let mut sum: usize = 0;
    for i in 0..n {
        sum += text_lines::digits(i as u64) + n + 2;
    }
    sum
}

// The length of the text of a design's kit. The lines of names have 6, 18 and 12 bytes.
pub fn kit_length(d: Design, own: &[u8], parity: &[u8]) -> usize
    requires { Allowed d × (length own.now ≡ 2 * order_of d) × (length parity.now ≡ 2 * order_of d) }
    ensures { result ≡ text_length d.m d.t d.size own.now parity.now }
{
    let n = d.order();
    let numbers = three_length(d.m() as u64, d.t() as u64, d.size() as u64);
    numbers + 24 + (pairs_length(n, own, parity) + 12 + rows_length(n))
}
