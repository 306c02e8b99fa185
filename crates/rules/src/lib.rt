// The rules of document 01's table after the design's and before rule 9: numbers and lengths, then what the bytes of the lent slices hold. Every call
// judges by `check_frame` and `check_bytes`, or by parts of them.
//   check_frame, check_lengths, ..        rules 4 to 6 (module lengths)
//   check_batch                           rules 4, 17 and 6 (there)
//   check_bytes                           rules 7, 8 and 10
//   check_buffer                          rules 4 to 6 and 10 for the buffer of an original frame
//   entry(list, p)                        entry p of a list
//   check_lists(own, parity, n, marks)    rule 7
//   check_spare(inverse, n)               rule 8
//   check_bits(bytes, base)               rule 10, for one buffer
//
// Each contract says that the answer is the verdict of the rule in the crate `staircase`, for every argument that the `requires` line lets in.
//
// A rule that asks for the first place is a search from the front that stops there: what it has passed is known to be right, so the place at
// which it stops is the table's.
// - Rule 7 marks each number that it meets. A mark is set exactly when an earlier entry had that number, which spares comparing each entry with
//   all before it.
// - Rule 8 reads the last byte of each row alone. Columns fill its low bits, so a spare bit is 1 exactly when the byte is 2^used or more, where
//   `used` bits of it are columns.
#![tactic(auto)]

mod lengths;

ghost use Rattle.std.specs.Prelude.{◌≡◌, ℕ, ◌+◌, ◌*◌, ◌^◌, ◌≤◌, ◌<◌, length, get_or};
ghost use Rattle.staircase.specs.Design.{most-order};
ghost use Rattle.staircase.specs.System.{row_bytes};
ghost use Rattle.staircase.specs.Rules.{◌then◌, refuse_first, entries, bad_entry, spare_row, bit_rule};
ghost use Rattle.answers.specs.Answers.{verdict_of};
ghost use Rattle.design.specs.Sizes.{params_of, lists_of};
ghost use Rattle.rules.specs.Bytes.{byte_rules, buffer_verdict, Measured};

use answers::Refusal;
use design::Design;
pub use lengths::{
    INFORMATION, INVERSE, Lengths, PARITY, REDUNDANCY, SELF, TEXT, WORKING, batch_due, check_batch,
    check_frame, check_frame_lengths, check_kit_lengths, check_length, check_lengths,
    check_list_lengths, decoder_due, frame_due, kept_work, kit_due, lists_due, make_due,
    original_decoder_due, original_due,
};

// Entry p of the lent list: two bytes, low byte first. Constant work.
pub fn entry(list: &[u8], p: usize) -> usize
    requires { 2 * p + 1 < length list.now }
    ensures { (result ≡ get_or list.now (2 * p) 0 + 256 * get_or list.now (2 * p + 1) 0) × (result < 65536) }
{
    usize::from(u16::from_le_bytes([list[2 * p], list[2 * p + 1]]))
}

// Rule 7 for the lent list of n entries; places count from `base`. `marks` is a working byte for each of the n numbers, and its bytes afterwards
// are free. One pass over the marks and one over the list.
fn check_list(list: &[u8], n: usize, marks: &mut [u8], base: u64) -> Result<(), Refusal>
    requires { (length list.now ≡ 2 * n) × (length marks.old ≡ n) × (n ≤ most-order) × (base ≤ most-order) }
    ensures { verdict_of result ≡ refuse_first 7 base n (bad_entry n (entries n list.now)) }
{
    marks.fill(0);
    for p in 0..n {
        let e = entry(list, p);
        let place = base + (p as u64);
        if n <= e {
            return Err(Refusal::List(place));
        }
        if marks[e] != 0 {
            return Err(Refusal::List(place));
        }
        marks[e] = 1;
    }
    Ok(())
}

// Rule 7 for the lent self list and parity list, of n entries each. `marks` is n working bytes, which are free afterwards. Twice the work of
// `check_list`.
pub fn check_lists(own: &[u8], parity: &[u8], n: usize, marks: &mut [u8]) -> Result<(), Refusal>
    requires { (length own.now ≡ 2 * n) × (length parity.now ≡ 2 * n) × (length marks.old ≡ n) × (n ≤ most-order) }
    ensures { verdict_of result
        ≡ (refuse_first 7 0 n (bad_entry n (entries n own.now)) then refuse_first 7 n n (bad_entry n (entries n parity.now))) }
{
    check_list(own, n, marks, 0)?;
    check_list(parity, n, marks, n as u64)
}

// Rule 8 for the lent inverse of n rows and columns, packed. Reads one byte of each row, to the first with a spare bit of 1.
fn search_spare(inverse: &[u8], n: usize) -> Result<(), Refusal>
    requires { (length inverse.now ≡ n * row_bytes n) × (0 < n) × (n ≤ most-order) }
    ensures { verdict_of result ≡ refuse_first 8 0 n (spare_row inverse.now n) }
{
    let width = (n + 7) / 8;
    let used = (n + 7) % 8 + 1;
    let limit = 1 << used;
    for i in 0..n {
        if limit <= usize::from(inverse[i * width + (width - 1)]) {
            return Err(Refusal::Spare(i as u64));
        }
    }
    Ok(())
}

// Rule 8 for the lent inverse of n rows and columns, packed, or for an empty one, which has no spare bits.
pub fn check_spare(inverse: &[u8], n: usize) -> Result<(), Refusal>
    requires { (0 < length inverse.now → length inverse.now ≡ n * row_bytes n) × (0 < n) × (n ≤ most-order) }
    ensures { verdict_of result ≡ refuse_first 8 0 n (spare_row inverse.now n) }
{
    if inverse.len() == 0 {
        return Ok(());
    }
    search_spare(inverse, n)
}

// A number that no byte is above: the greatest of the lent bytes, 0 where there are none. No jump at a byte.
fn greatest(bytes: &[u8]) -> u8
    ensures { (k : ℕ) → k < length bytes.now → get_or bytes.now k 0 ≤ result }
{
    let mut most = 0;
    for &b in bytes {
        most = b.max(most);
    }
    most
}

// Rule 10 for the lent buffer; places count from `base`. One pass, to the first byte above 1.
fn search_bits(bytes: &[u8], base: u64) -> Result<(), Refusal>
    requires { length bytes.now + base < 2 ^ 63 }
    ensures { verdict_of result ≡ bit_rule base bytes.now }
{
    for (i, &b) in bytes.iter().enumerate() {
        if 1 < b {
            return Err(Refusal::Bit(base + (i as u64)));
        }
    }
    Ok(())
}

// Rule 10 for the lent buffer; places count from `base`. One pass, and a second one to the place where the rule refuses.
pub fn check_bits(bytes: &[u8], base: u64) -> Result<(), Refusal>
    requires { length bytes.now + base < 2 ^ 63 }
    ensures { verdict_of result ≡ bit_rule base bytes.now }
{
    let most = greatest(bytes);
    if most <= 1 {
        return Ok(());
    }
    search_bits(bytes, base)
}

// Rules 7, 8 and 10 for slices of their lengths. `marks` is a working byte for each entry of a list, free afterwards. An empty inverse passes rule 8, and
// an empty buffer rule 10. One pass over each.
pub fn check_bytes(
    d: Design,
    own: &[u8],
    parity: &[u8],
    inverse: &[u8],
    info: &[u8],
    red: &[u8],
    marks: &mut [u8],
) -> Result<(), Refusal>
    requires { Measured d own.now parity.now inverse.now info.now red.now marks.old }
    ensures { verdict_of result
        ≡ byte_rules (params_of d) (lists_of d own.now parity.now) inverse.now info.now red.now }
{
    let n = d.order();
    check_lists(own, parity, n, marks)?;
    check_spare(inverse, n)?;
    check_bits(info, 0)?;
    check_bits(red, info.len() as u64)
}

// Rules 4 to 6 and 10 for the buffer of an original frame, with `work` working bytes, of which `due` are due. One pass over it.
pub fn check_buffer(
    blocks: u64,
    rounds: u64,
    due: Lengths,
    buffer: &[u8],
    work: usize,
) -> Result<(), Refusal>
    ensures { verdict_of result ≡ buffer_verdict blocks rounds due buffer.now work }
{
    let have = Lengths {
        own: 0,
        parity: 0,
        inverse: 0,
        info: buffer.len(),
        red: 0,
        work,
    };
    check_frame(blocks, rounds, have, due)?;
    check_bits(buffer, 0)
}
