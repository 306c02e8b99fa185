// Reading texts item by item: numbers, fixed bytes, bits and the lines of a number and bits.
//   number_then(s, at, b)       a number and the byte b
//   literal(s, at, text)        fixed bytes; `byte_is` for one, `number_is` for the digits of a number
//   bit_run, bits_part          n bit characters; with a space before them
//   bits_line(s, at, n, p)      the line of the number p and n bits
//
// Each function reads at a position of the whole text s and answers the position after what it read, or `Broken`, the place where that goes wrong,
// counted from the start of s; `?` hands it on, also as a `TextError`. Contracts cite `walk` of the crate `text_formats`. No length is required of s: a
// position grows only where a byte was there.
#![tactic(auto)]

ghost use Rattle.std.specs.Prelude.{◌≡◌, [], ◌∷◌, ◌<◌};
ghost use Rattle.answers.specs.declared.TextError.TheVariants.{Broken as BrokenAt};
ghost use Rattle.text_formats.specs.Format.{byte, num, dec};
ghost use Rattle.text_formats.specs.Items.{walk, lits, bits, bits_line};
ghost use Rattle.text_items.specs.Answers.{digit_at, num_at, step_of, step_walk, field_walk};

use answers::TextError;

// The place of the first byte that the format does not take.
#[derive(Clone, Copy, Debug, PartialEq, Eq)]
pub struct Broken {
    pub place: usize,
}

impl From<Broken> for TextError {
    ghost from_gives = { λ b e. e ≡ BrokenAt b.place };

    fn from(b: Broken) -> TextError {
        TextError::Broken(b.place as u64)
    }
}

// The value of the digit at i, and 10 where there is none.
fn digit_at(s: &[u8], i: usize) -> usize
    ensures { result ≡ digit_at s.now i }
{
    if s.len() <= i {
        return 10;
    }
    let c = s[i];
    if c < 48 {
        return 10;
    }
    if 57 < c {
        return 10;
    }
    usize::from(c - 48)
}

// The number at a position and the position after it: one to four digits, the first of which is 0 only where it is the only one.
pub fn number(s: &[u8], at: usize) -> Option<(usize, usize)>
    ensures { result ≡ num_at s.now at }
{
    let first = digit_at(s, at);
    if 10 <= first {
        return None;
    }
    if first == 0 {
        return Some((0, at + 1));
    }
    let mut v = first;
    for n in 1..4 {
        let d = digit_at(s, at + n);
        if 10 <= d {
            return Some((v, at + n));
        }
        v = v * 10 + d;
    }
    Some((v, at + 4))
}

// The byte b at a position.
pub fn byte_is(s: &[u8], at: usize, b: u8) -> Result<usize, Broken>
    ensures { step_walk result ≡ walk (byte b ∷ []) s.now at }
{
    if s.len() <= at {
        return Err(Broken { place: at });
    }
    if s[at] != b {
        return Err(Broken { place: at });
    }
    Ok(at + 1)
}

// A number at a position, with the byte b after it, and the position after both.
pub fn number_then(s: &[u8], at: usize, b: u8) -> Result<(usize, usize), Broken>
    ensures { field_walk result ≡ walk (num ∷ byte b ∷ []) s.now at }
{
    let (v, q) = number(s, at).ok_or(Broken { place: at })?;
    let e = byte_is(s, q, b)?;
    Ok((v, e))
}

// The fixed bytes pat at a position.
pub fn literal(s: &[u8], at: usize, pat: &[u8]) -> Result<usize, Broken>
    ensures { step_walk result ≡ walk (lits pat.now) s.now at }
{
    let mut q = at;
    for &b in pat {
        q = byte_is(s, q, b)?;
    }
    Ok(q)
}

// n bit characters at a position.
pub fn bit_run(s: &[u8], at: usize, n: usize) -> Result<usize, Broken>
    ensures { result ≡ step_of (walk (bits n) s.now at) }
{
    let mut q = at;
    for _i in 0..n {
        if s.len() <= q {
            return Err(Broken { place: q });
        }
        let c = s[q];
        if c < 48 {
            return Err(Broken { place: q });
        }
        if 49 < c {
            return Err(Broken { place: q });
        }
        q += 1;
    }
    Ok(q)
}

// A space and n bit characters at a position.
pub fn bits_part(s: &[u8], at: usize, n: usize) -> Result<usize, Broken>
    ensures { result ≡ step_of (walk (byte 32 ∷ bits n) s.now at) }
{
    let i = byte_is(s, at, 32)?;
    bit_run(s, i, n)
}

// The digits of p at a position.
pub fn number_is(s: &[u8], at: usize, p: usize) -> Result<usize, Broken>
    requires { p < 10000 }
    ensures { step_walk result ≡ walk (lits (dec p)) s.now at }
{
    let mut text = [0u8; 20];
    let n = text_lines::put_number(&mut text, 0, p as u64);
    literal(s, at, &text[..n])
}

// The line of the number p and n bits.
pub fn bits_line(s: &[u8], at: usize, n: usize, p: usize) -> Result<usize, Broken>
    requires { p < 10000 }
    ensures { result ≡ step_of (walk (bits_line n p) s.now at) }
{
    let i = number_is(s, at, p)?;
    let e = bits_part(s, i, n)?;
    byte_is(s, e, 10)
}
