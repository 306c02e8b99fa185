// Writes lines into lent buffers, from a position on, and answers the position after them.
//   put_text        bytes as they are
//   block_line      the line of a block: its number and bits
//   group_line      the line of a group: its number, Y and P
//   refusal_lines   `refused place` and the two numbers
//   count_lines     `rounds turned outside` and the three numbers
//
// They have no `requires`: the position may be any number and the slices of any length. They count the bytes of the text first, and compare them with
// the bytes that follow the position part by part, so that no sum can be too large. Where there is no room, nothing is written and the answer is the
// position itself. Where there is, the crate `text_lines` writes.
#![tactic(auto)]

ghost use Rattle.std.specs.Prelude.{◌≡◌, ◌+◌, leb};
ghost use Rattle.text.specs.FrameText.{bits_text, group_line_text};
ghost use Rattle.text.specs.Programs.{refusal_text, counts_text};
ghost use Rattle.text_write.specs.Room.{puts, after};

// Whether three parts of these lengths have room behind a position.
fn has_room(len: usize, at: usize, a: usize, b: usize, c: usize) -> bool
    ensures { result ≡ leb (at + (a + (b + c))) len }
{
    if len < at {
        return false;
    }
    let behind = len - at;
    if behind < a {
        return false;
    }
    let rest = behind - a;
    if rest < b {
        return false;
    }
    c <= rest - b
}

// Writes the text from a position on, where it has room, and answers the position after it; where it has none, writes nothing and answers the
// position itself. The position may be any number.
pub fn put_text(out: &mut [u8], at: usize, text: &[u8]) -> usize
    ensures value { result ≡ after out.old at text.now }
    ensures out_after { out.new ≡ puts out.old at text.now }
{
    let room = has_room(out.len(), at, text.len(), 0, 0);
    if room {
        return text_lines::put_bytes(out, at, text);
    }
    at
}

// The line of a block, its number and its bits, written as `put_text` writes a text. Of a byte above 1 the last bit counts.
pub fn block_line(out: &mut [u8], at: usize, number: u64, bits: &[u8]) -> usize
    ensures value { result ≡ after out.old at (bits_text number bits.now) }
    ensures out_after { out.new ≡ puts out.old at (bits_text number bits.now) }
{
    let n = text_lines::digits(number);
    let room = has_room(out.len(), at, n + 2, bits.len(), 0);
    if room {
        return text_lines::put_block(out, at, number, bits);
    }
    at
}

// The line of a group, its number, Y and P, written as `put_text` writes a text. Of a byte above 1 the last bit counts.
pub fn group_line(out: &mut [u8], at: usize, number: u64, own: &[u8], parity: &[u8]) -> usize
    ensures value { result ≡ after out.old at (group_line_text number own.now parity.now) }
    ensures out_after { out.new ≡ puts out.old at (group_line_text number own.now parity.now) }
{
    let n = text_lines::digits(number);
    let room = has_room(out.len(), at, n + 3, own.len(), parity.len());
    if room {
        return text_lines::put_group(out, at, number, own, parity);
    }
    at
}

// The two lines of a refusal, its rule's number and its place, written as `put_text` writes a text.
pub fn refusal_lines(out: &mut [u8], at: usize, rule: u64, place: u64) -> usize
    ensures value { result ≡ after out.old at (refusal_text rule place) }
    ensures out_after { out.new ≡ puts out.old at (refusal_text rule place) }
{
    let a = text_lines::digits(rule);
    let b = text_lines::digits(place);
    let room = has_room(out.len(), at, 16, a, b);
    if room {
        return text_lines::put_refusal(out, at, rule, place);
    }
    at
}

// The two lines of the decoder's counts, written as `put_text` writes a text.
pub fn count_lines(out: &mut [u8], at: usize, rounds: u64, turned: u64, outside: u64) -> usize
    ensures value { result ≡ after out.old at (counts_text rounds turned outside) }
    ensures out_after { out.new ≡ puts out.old at (counts_text rounds turned outside) }
{
    let a = text_lines::digits(rounds);
    let b = text_lines::digits(turned);
    let c = text_lines::digits(outside);
    let room = has_room(out.len(), at, a + 25, b, c);
    if room {
        return text_lines::put_counts(out, at, rounds, turned, outside);
    }
    at
}
