// The writer of kit text.
//   text_length(m, t, size, own, parity)                      rules 1 to 3, and rule 6 for the lists: the length of the text, or the refusal
//   write_kit(m, t, size, own, parity, inverse, text)         rules 1 to 3 and 6 to 8: a right kit fills the text's buffer
//   kit_length(d, own, parity)                                the length of the text of a kit, for lists that fit
//   put_kit(d, own, parity, inverse, text)                    makes a buffer of that length the text, for a kit that fits
//
// The first two have no `requires`. All rules are judged before the first byte is written, so a refused call leaves the buffer as it was. The length
// of the text is judged before rule 7, so in it an entry counts with all its digits, even five. What is written reads back to the same kit
// (KitWritten of the crate `text`). Module lengths has the length, and module lines writes.
#![tactic(auto)]

mod lengths;
mod lines;

ghost use Rattle.std.specs.Prelude.{◌≡◌, length};
ghost use Rattle.design.specs.Answers.{Allowed};
ghost use Rattle.text.specs.KitWriter.{measure_call, write_call};
ghost use Rattle.text_kit_write.specs.Checks.{text_rules, measured_of};
ghost use Rattle.answers.specs.Answers.{verdict_of};

use answers::Refusal;
use design::Design;
pub use lengths::kit_length;
pub use lines::put_kit;

// Rules 6 to 8 for a kit of an allowed design and a text buffer of `length` bytes.
fn check_text(
    d: Design,
    own: &[u8],
    parity: &[u8],
    inverse: &[u8],
    length: usize,
) -> Result<(), Refusal>
    requires { Allowed d }
    ensures { verdict_of result ≡ text_rules d.m d.t d.size d.col own.now parity.now inverse.now length }
{
    rules::check_kit_lengths(d, own, parity, inverse)?;
    rules::check_length(rules::TEXT, length, lengths::kit_length(d, own, parity))?;
    let n = d.order();
    let none = &own[..0];
    let mut marks = [0u8; 4096];
    rules::check_bytes(d, own, parity, inverse, none, none, &mut marks[0..n])
}

// The length of a kit's text, the same for every inverse: rules 1 to 3, and rule 6 for the two lists, whose entries may be any. A few steps for each
// digit of the lists and of the rows' numbers.
pub fn text_length(m: u64, t: u64, size: u64, own: &[u8], parity: &[u8]) -> Result<u64, Refusal>
    ensures { measured_of result ≡ measure_call m t size own.now parity.now }
{
    let d = Design::new(m, t, size)?;
    rules::check_list_lengths(d, own, parity)?;
    Ok(lengths::kit_length(d, own, parity) as u64)
}

// Writes the text of a kit: rules 1 to 3 and 6 to 8, with the table's number and place of the first that refuses; place 7 of rule 6 is the text's
// buffer, whose length must be that of the text (`text_length`). A refused call leaves the buffer as it was. Rule 9 is not judged. The work is one
// step for each character.
pub fn write_kit(
    m: u64,
    t: u64,
    size: u64,
    own: &[u8],
    parity: &[u8],
    inverse: &[u8],
    text: &mut [u8],
) -> Result<(), Refusal>
    ensures { (verdict_of result ≡ (write_call m t size own.now parity.now inverse.now text.old).verdict)
        × (text.new ≡ (write_call m t size own.now parity.now inverse.now text.old).text) }
{
    let d = Design::new(m, t, size)?;
    check_text(d, own, parity, inverse, text.len())?;
    lines::put_kit(d, own, parity, inverse, text);
    Ok(())
}
