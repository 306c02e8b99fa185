// Writes numbers, bytes and lines into lent buffers, from a position on, where the caller has shown that there is room, and answers the position after
// them.
//   digits          how many digits a number has
//   put_number      the digits of any number of 64 bits, where twenty bytes follow
//   put_bytes       bytes as they are
//   put_byte        one byte
//   put_field       a number and the byte behind it
//   put_block       the line of a block: its number and bits
//   put_group       the line of a group: its number, Y and P
//   put_refusal     `refused place` and the two numbers
//   put_counts      `rounds turned outside` and the three numbers
//   put_blocks, put_groups   block text and group text (module whole)
//
// The digits of a number of at least 10 are those of its tenth part and one more, so a number is written by writing its tenth part first.
#![tactic(auto)]

mod whole;

ghost use Rattle.std.specs.Prelude.{◌≡◌, [], ◌∷◌, ◌++◌, ◌+◌, ◌≤◌, length};
ghost use Rattle.std.proofs.lemmas.List.Edits.{sets};
ghost use Rattle.text_formats.specs.Format.{dec};
ghost use Rattle.text_lines.specs.Written.{chars};
ghost use Rattle.text.specs.FrameText.{bits_text, group_line_text};
ghost use Rattle.text.specs.Programs.{refusal_text, counts_text};

pub use whole::{put_blocks, put_groups};

// The number of decimal digits of v.
pub fn digits(v: u64) -> usize
    ensures { result ≡ length (dec v) }
{
    let mut n: usize = 1;
    let mut x = v;
    while 10 <= x {
        x /= 10;
        n += 1;
    }
    n
}

// Writes one byte, for which there is room, and answers the position after it.
pub fn put_byte(out: &mut [u8], at: usize, b: u8) -> usize
    requires { at + 1 ≤ length out.old }
    ensures value { result ≡ at + 1 }
    ensures out_after { out.new ≡ sets out.old at (b ∷ []) }
{
    out[at] = b;
    at + 1
}

// Writes the decimal digits of v, for which there is room, from a position on, and answers the position after them.
fn put_digits(out: &mut [u8], at: usize, v: u64) -> usize
    requires { at + length (dec v) ≤ length out.old }
    ensures value { result ≡ at + length (dec v) }
    ensures out_after { out.new ≡ sets out.old at (dec v) }
{
    if v < 10 {
        out[at] = (48 + v) as u8;
        return at + 1;
    }
    let i = put_digits(out, at, v / 10);
    out[i] = (48 + v % 10) as u8;
    i + 1
}

// Writes the decimal digits of v from a position on that 20 bytes follow, and answers the position after them.
pub fn put_number(out: &mut [u8], at: usize, v: u64) -> usize
    requires { at + 20 ≤ length out.old }
    ensures value { result ≡ at + length (dec v) }
    ensures out_after { out.new ≡ sets out.old at (dec v) }
{
    put_digits(out, at, v)
}

// Writes bytes, for which there is room, from a position on, and answers the position after them.
pub fn put_bytes(out: &mut [u8], at: usize, text: &[u8]) -> usize
    requires { at + length text.now ≤ length out.old }
    ensures value { result ≡ at + length text.now }
    ensures out_after { out.new ≡ sets out.old at text.now }
{
    let end = at + text.len();
    out[at..end].copy_from_slice(text);
    end
}

// Writes the characters of bits, for which there is room, from a position on, and answers the position after them.
fn put_bits(out: &mut [u8], at: usize, bits: &[u8]) -> usize
    requires { at + length bits.now ≤ length out.old }
    ensures value { result ≡ at + length bits.now }
    ensures out_after { out.new ≡ sets out.old at (chars bits.now) }
{
    for (i, &b) in bits.iter().enumerate() {
        out[at + i] = 48 + b % 2;
    }
    at + bits.len()
}

// A number and the byte behind it.
pub fn put_field(out: &mut [u8], at: usize, v: u64, end: u8) -> usize
    requires { at + (length (dec v) + 1) ≤ length out.old }
    ensures value { result ≡ at + (length (dec v) + 1) }
    ensures out_after { out.new ≡ sets out.old at (dec v ++ (end ∷ [])) }
{
    let i = put_digits(out, at, v);
    put_byte(out, i, end)
}

// The characters of bits and the byte behind them.
fn put_run(out: &mut [u8], at: usize, bits: &[u8], end: u8) -> usize
    requires { at + (length bits.now + 1) ≤ length out.old }
    ensures value { result ≡ at + (length bits.now + 1) }
    ensures out_after { out.new ≡ sets out.old at (chars bits.now ++ (end ∷ [])) }
{
    let i = put_bits(out, at, bits);
    put_byte(out, i, end)
}

// The line of a block, for which there is room.
pub fn put_block(out: &mut [u8], at: usize, number: u64, bits: &[u8]) -> usize
    requires { at + (length (dec number) + 2 + length bits.now) ≤ length out.old }
    ensures value { result ≡ at + length (bits_text number bits.now) }
    ensures out_after { out.new ≡ sets out.old at (bits_text number bits.now) }
{
    let i = put_field(out, at, number, 32);
    put_run(out, i, bits, 10)
}

// The line of a group, for which there is room.
pub fn put_group(out: &mut [u8], at: usize, number: u64, own: &[u8], parity: &[u8]) -> usize
    requires { at + (length (dec number) + 3 + (length own.now + length parity.now)) ≤ length out.old }
    ensures value { result ≡ at + length (group_line_text number own.now parity.now) }
    ensures out_after { out.new ≡ sets out.old at (group_line_text number own.now parity.now) }
{
    let i = put_field(out, at, number, 32);
    let j = put_run(out, i, own, 32);
    put_run(out, j, parity, 10)
}

// The two lines of a refusal, for which there is room.
pub fn put_refusal(out: &mut [u8], at: usize, rule: u64, place: u64) -> usize
    requires { at + (16 + (length (dec rule) + length (dec place))) ≤ length out.old }
    ensures value { result ≡ at + length (refusal_text rule place) }
    ensures out_after { out.new ≡ sets out.old at (refusal_text rule place) }
{
    let i = put_bytes(out, at, b"refused place\n");
    let j = put_field(out, i, rule, 32);
    put_field(out, j, place, 10)
}

// The two lines of the counts, for which there is room.
pub fn put_counts(out: &mut [u8], at: usize, rounds: u64, turned: u64, outside: u64) -> usize
    requires { at + (25 + (length (dec rounds) + (length (dec turned) + length (dec outside)))) ≤ length out.old }
    ensures value { result ≡ at + length (counts_text rounds turned outside) }
    ensures out_after { out.new ≡ sets out.old at (counts_text rounds turned outside) }
{
    let i = put_bytes(out, at, b"rounds turned outside\n");
    let j = put_field(out, i, rounds, 32);
    let k = put_field(out, j, turned, 32);
    put_field(out, k, outside, 10)
}
