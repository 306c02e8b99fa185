// What the programs share. What each prints is defined in Programs and MakeKit of the crate `text`, for every kit.txt and every standard input; the
// crates `program_frame`, `program_mend` and `program_makekit` make it, and the programs themselves only read their inputs and write it.
//   MOST_INPUT, MOST_OUTPUT                the bytes that an input and an output may have
//   Text                                   which text a program reads
//   begin(kit, text, kind)                 rule 13 for both inputs, then the kit, then the text: the design and the number of blocks, or a refusal
//   judge_error(rule, e)                   the number and place of a text's error
//   sizes_of(d, blocks)                    the lengths that readers and calls are lent
//   list_bytes, matrix_bytes, text_bits    arrays of fixed lengths, for so many bytes
//   put_refusal(out, rule, place)          a refusal's two lines
//   put_refused(out, r)                    those of what a call refused
//
// Kit and text are scanned before anything is lent, since the design and the number of blocks say how much to lend: a kit text of at most 32,768
// bytes has at most 181 rows, though its design may name 4,090. Then the readers and the call are lent parts of fixed arrays that fit. So every refusal
// is known before the first byte of an answer, and the answer is written whole.
#![tactic(auto)]

ghost use Rattle.std.specs.Prelude.{◌≡◌, List, ℕ, ◌*◌, ◌≤◌, length};
ghost use Rattle.staircase.specs.Design.{most-blocks};
ghost use Rattle.answers.specs.Answers.{refusal_verdict};
ghost use Rattle.text.specs.Programs.{refusal_text, printed, most-input};
ghost use Rattle.rules_verdict.specs.Number.{judged_of};
ghost use Rattle.text_items.specs.Answers.{error_verdict};
ghost use Rattle.text_frame.specs.Answers.{blocks_verdict, CountIs};
ghost use Rattle.program.specs.Output.{Printed, most-output};
ghost use Rattle.program.specs.Steps.{text_rule, text_count, Started, StartIs, SizesAre, RoomFor};

use answers::{Refusal, TextError};
use design::Design;
use rules_verdict::Judged;

// Rule 13: "above 32,768 bytes".
pub const MOST_INPUT: usize = 32768;

// No output of a program is longer.
pub const MOST_OUTPUT: usize = 262144;

// The text that a program reads: block text, or frame text, which is block text followed by group text.
#[derive(Clone, Copy, Debug, PartialEq, Eq)]
pub enum Text {
    Blocks,
    Frame,
}

// M × r, and the bytes of a list, of the inverse, of the information and of the redundancy.
#[derive(Clone, Copy, Debug, PartialEq, Eq)]
pub struct Sizes {
    pub order: usize,
    pub list: usize,
    pub inverse: usize,
    pub info: usize,
    pub red: usize,
}

// Rule 12 for a text.
#[tactic(auto, unfolding(crate::specs::Steps::text_rule, crate::specs::Steps::text_count))]
fn scan_text(text: &[u8], d: Design, kind: Text) -> Result<u64, TextError>
    ensures result_value { blocks_verdict result ≡ text_rule kind d.size (d.m * d.t) text.now }
    ensures count_is { CountIs result (text_count kind d.size (d.m * d.t) text.now) }
{
    match kind {
        Text::Blocks => text_frame::scan_blocks(text, d),
        Text::Frame => text_frame::scan_frame(text, d),
    }
}

// The number and place of a text's error, for the rule of the text's format.
pub fn judge_error(rule: u64, e: TextError) -> Judged
    ensures { result ≡ judged_of (error_verdict rule e) }
{
    match e {
        TextError::Broken(place) => Judged { rule, place },
        TextError::Refused(r) => Judged::from(r),
    }
}

// The text, behind a kit that was scanned.
fn begin_text(text: &[u8], d: Design, kind: Text) -> Result<(Design, u64), Judged>
    ensures { (kit : List ℕ) → Started d kit text.now → StartIs result kind kit text.now }
{
    // kept as a match: behind map_err no answer could name what the closure gives
    match scan_text(text, d, kind) {
        Ok(blocks) => Ok((d, blocks)),
        Err(e) => Err(judge_error(12, e)),
    }
}

// Rule 13 for both inputs, then the kit, then the text: the design and the number of blocks, or the number and place of a refusal.
pub fn begin(kit: &[u8], text: &[u8], kind: Text) -> Result<(Design, u64), Judged>
    ensures { StartIs result kind kit.now text.now }
{
    if MOST_INPUT < kit.len() {
        return Err(Judged { rule: 13, place: 1 });
    }
    if MOST_INPUT < text.len() {
        return Err(Judged { rule: 13, place: 2 });
    }
    match text_kit::scan_kit(kit) {
        Ok(d) => begin_text(text, d, kind),
        Err(e) => Err(judge_error(11, e)),
    }
}

// The lengths for a design and a number of blocks.
pub fn sizes_of(d: Design, blocks: u64) -> Sizes
    requires { blocks ≤ most-blocks }
    ensures { SizesAre result d blocks }
{
    let n = d.order();
    let inverse = n * d.row_bytes();
    let info = (blocks as usize) * d.area();
    let groups = design::group_count(blocks);
    let red = (groups as usize) * (2 * n);
    Sizes {
        order: n,
        list: 2 * n,
        inverse,
        info,
        red,
    }
}

// Arrays for a list, for a packed matrix and for the bits of a text. Only their room is told: a kit text of at most 32,768 bytes has at most 181 rows,
// since 182² is more, so that a list has at most 2 × 181 bytes, and the inverse 181 rows of at most 23.
pub fn list_bytes(n: usize) -> [u8; 362]
    requires { n ≤ 362 }
    ensures { RoomFor n result }
{
    [0; 362]
}

pub fn matrix_bytes(n: usize) -> [u8; 4163]
    requires { n ≤ 4163 }
    ensures { RoomFor n result }
{
    [0; 4163]
}

pub fn text_bits(n: usize) -> [u8; 32768]
    requires { n ≤ most-input }
    ensures { RoomFor n result }
{
    [0; 32768]
}

// Writes the two lines of a refusal, for which there is room.
pub fn put_refusal(out: &mut [u8], rule: u64, place: u64) -> usize
    requires { most-output ≤ length out.old }
    ensures { Printed (refusal_text rule place) result out.old out.new }
{
    text_write::refusal_lines(out, 0, rule, place)
}

// The same for what a call refused, in the place of any text.
pub fn put_refused(out: &mut [u8], r: Refusal) -> usize
    requires { most-output ≤ length out.old }
    ensures { (t : List ℕ) → Printed (printed (refusal_verdict r) t) result out.old out.new }
{
    let judged = Judged::from(r);
    put_refusal(out, judged.rule, judged.place)
}
