// Judging a kit text: nothing is written. The crate `text_kit` has document 01's reader over it.
//   read_front(text)          the two lines (rule 11), and then rules 1 to 3 for their numbers
//   judge_rest(text, at, n)   the rest (rule 11), for n = M × r, to the end of the text
//   judge_lists(text, at, n)  the rest of a text that ends behind the lists (rule 11), for n = M × r
//   pair_line(text, at, p)    the line of a place of the lists, with its two entries
//
// Each function reads at a position of the whole text and answers the position after what it read, or `Broken`, the place where that goes wrong.
// specs/Answers.antt says what an answer means by the format of KitText in the crate `text`. Each goes once through what it reads.
#![tactic(auto)]

ghost use Rattle.std.specs.Prelude.{◌≡◌, ◌≤◌, ◌<◌};
ghost use Rattle.staircase.specs.Design.{most-order};
ghost use Rattle.text_formats.specs.Items.{walk, bits_lines};
ghost use Rattle.text_items.specs.Answers.{step_of};
ghost use Rattle.text.specs.KitText.{two_numbers, head_items, pair_line, pair_lines};
ghost use Rattle.text_kit_scan.specs.Answers.{head_walk, line_walk, front_rule, front_verdict, FrontIs, rest_rule, rest_verdict, RestParts, TailIs, ListsAre};

use answers::TextError;
use design::Design;
use text_items::Broken;

// Two numbers, with a space between them and the line feed behind them, and the position after them.
fn two_numbers(s: &[u8], at: usize) -> Result<(usize, usize, usize), Broken>
    ensures { line_walk result ≡ walk two_numbers s.now at }
{
    let (a, i) = text_items::number_then(s, at, 32)?;
    let (b, e) = text_items::number_then(s, i, 10)?;
    Ok((a, b, e))
}

// The three numbers of the two lines, whatever they are, and the position after the lines.
fn read_head(s: &[u8]) -> Result<(usize, usize, usize, usize), Broken>
    ensures { head_walk result ≡ walk head_items s.now 0 }
{
    let i = text_items::literal(s, 0, b"m t M\n")?;
    let (m, j) = text_items::number_then(s, i, 32)?;
    let (t, size, e) = two_numbers(s, j)?;
    Ok((m, t, size, e))
}

// The two lines, and then rules 1 to 3 for their numbers: the design and the position after the lines.
pub fn read_front(s: &[u8]) -> Result<(Design, usize), TextError>
    ensures result_value { front_verdict result ≡ front_rule s.now }
    ensures front_is { FrontIs result s.now }
{
    let (m, t, size, at) = read_head(s)?;
    let d = Design::new(m as u64, t as u64, size as u64)?;
    Ok((d, at))
}

// The line of place p, `p self parity`: its two entries and the position after it.
pub fn pair_line(s: &[u8], at: usize, p: usize) -> Result<(usize, usize, usize), Broken>
    requires { p < 10000 }
    ensures { line_walk result ≡ walk (pair_line p) s.now at }
{
    let i = text_items::number_is(s, at, p)?;
    let j = text_items::byte_is(s, i, 32)?;
    two_numbers(s, j)
}

// The lines of the places 0 to n - 1.
fn pairs(s: &[u8], at: usize, n: usize) -> Result<usize, Broken>
    requires { n ≤ most-order }
    ensures { result ≡ step_of (walk (pair_lines 0 n) s.now at) }
{
    let mut q = at;
    for place in 0..n {
        q = pair_line(s, q, place)?.2;
    }
    Ok(q)
}

// The lines of the rows 0 to n - 1, of n bits each.
fn rows(s: &[u8], at: usize, n: usize) -> Result<usize, Broken>
    requires { n ≤ most-order }
    ensures { result ≡ step_of (walk (bits_lines n 0 n) s.now at) }
{
    let mut q = at;
    for row in 0..n {
        q = text_items::bits_line(s, q, n, row)?;
    }
    Ok(q)
}

// What follows the lists' lines: the names, the lines of the rows and the end of the text. Answers the position of the rows' lines.
fn rows_and_end(s: &[u8], at: usize, n: usize) -> Result<usize, Broken>
    requires { n ≤ most-order }
    ensures { TailIs result n s.now at }
{
    let i = text_items::literal(s, at, b"row inverse\n")?;
    let e = rows(s, i, n)?;
    if e < s.len() {
        return Err(Broken { place: e });
    }
    Ok(i)
}

// The rest of a kit text, for n = M × r, to the end of the text. Answers the positions of the lists' lines and of the inverse's lines.
pub fn judge_rest(s: &[u8], at: usize, n: usize) -> Result<(usize, usize), Broken>
    requires { n ≤ most-order }
    ensures result_value { rest_verdict result ≡ rest_rule n s.now at }
    ensures rest_parts { RestParts result n s.now at }
{
    let i = text_items::literal(s, at, b"place self parity\n")?;
    let e = pairs(s, i, n)?;
    let j = rows_and_end(s, e, n)?;
    Ok((i, j))
}

// The rest of a text that ends behind the lists, for n = M × r, to the end of the text. Answers the position of the lists' lines.
pub fn judge_lists(s: &[u8], at: usize, n: usize) -> Result<usize, Broken>
    requires { n ≤ most-order }
    ensures { ListsAre result n s.now at }
{
    let i = text_items::literal(s, at, b"place self parity\n")?;
    let end = pairs(s, i, n)?;
    if end < s.len() {
        return Err(Broken { place: end });
    }
    Ok(i)
}
