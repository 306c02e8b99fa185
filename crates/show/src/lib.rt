// Showing a block or a group of a frame: rules 1 to 4 and 6 of document 01's table, then the stretch of the buffer that holds it.
//   check_show   the verdict on the arguments: passed, or the first refusal
//   show         the stretch of the lent buffer, empty exactly when `check_show` of the same arguments refuses
//
// Neither call has a `requires`: the rules are tested in the table's order, and a product is formed only once the factors are known to be small.
// Blocks stand in the information and groups in the redundancy, one after another and all of one size, so a stretch starts at
// (number - 1) × size. A frame whose lengths pass rule 6 has that stretch whole, and no byte is copied: the answer is a part of the slice lent.
#![tactic(auto)]

ghost use Rattle.std.specs.Prelude.{◌≡◌, ◌-◌, ◌*◌, ◌≤◌, take, drop};
ghost use Rattle.staircase.specs.Design.{most-blocks};
ghost use Rattle.staircase.specs.Rules.{refuse, out_of_range, part_rule};
ghost use Rattle.staircase.specs.Calls.{stretch, show_call};
ghost use Rattle.design.specs.Sizes.{params_of};
ghost use Rattle.answers.specs.Answers.{verdict_of};
ghost use Rattle.show.specs.Answers.{part_of};
ghost use Rattle.show.specs.Show.{frame_rules, HasStretch, HasPart};

use answers::Refusal;
use design::Design;

// What is shown: a block or a group, by its number from 1.
#[derive(Clone, Copy, Debug, PartialEq, Eq)]
pub enum Part {
    Block(u64),
    Group(u64),
}

// Rule 4 for the number of a block or a group, of which there are `most`.
fn check_number(most: u64, number: u64) -> Result<(), Refusal>
    ensures { verdict_of result ≡ refuse (out_of_range 1 most number) 4 number }
{
    if design::out_of_range(1, most, number) {
        return Err(Refusal::Count(number));
    }
    Ok(())
}

// Rule 4 for the part to be shown.
fn check_part(blocks: u64, part: Part) -> Result<(), Refusal>
    requires { blocks ≤ most-blocks }
    ensures { verdict_of result ≡ part_rule blocks (part_of part) }
{
    let groups = design::group_count(blocks);
    match part {
        Part::Block(b) => check_number(blocks, b),
        Part::Group(i) => check_number(groups, i),
    }
}

// Rules 4 and 6, for the frame of an allowed design.
fn check_frame(d: Design, blocks: u64, part: Part, info: &[u8], red: &[u8]) -> Result<(), Refusal>
    ensures { verdict_of result
        ≡ frame_rules (params_of d) blocks (part_of part) info.now red.now }
{
    design::check_count(blocks)?;
    check_part(blocks, part)?;
    rules::check_frame_lengths(d, blocks, info, red)
}

// The stretch of n bytes with this number, counted from 1, of the lent bytes.
fn stretch_of(bytes: &[u8], n: usize, number: u64) -> &[u8]
    requires { HasStretch n number bytes.now }
    ensures { result.now ≡ take n (drop ((number - 1) * n) bytes.now) }
{
    let before = number - 1;
    let at = (before as usize) * n;
    &bytes[at..at + n]
}

// The block or the group, of the buffer that holds it.
fn shown_part<'a, 'b: 'a>(d: Design, part: Part, info: &'a [u8], red: &'b [u8]) -> &'a [u8]
    requires { HasPart (params_of d) (part_of part) info.now red.now }
    ensures { result.now ≡ stretch (params_of d) (part_of part) info.now red.now }
{
    let block_size = d.area();
    let group_size = 2 * d.order();
    match part {
        Part::Block(b) => stretch_of(info, block_size, b),
        Part::Group(i) => stretch_of(red, group_size, i),
    }
}

// The check of the arguments of `show`: rules 1 to 4 and 6, with the table's number and place of the first that refuses. Reads the lengths of the
// lent information and redundancy alone. Constant work.
pub fn check_show_col(
    m: u64,
    t: u64,
    size: u64,
    col: u64,
    blocks: u64,
    part: Part,
    info: &[u8],
    red: &[u8],
) -> Result<(), Refusal>
    ensures { verdict_of result ≡ (show_call m t size col blocks (part_of part) info.now red.now).verdict }
{
    let d = Design::new_col(m, t, size, col)?;
    check_frame(d, blocks, part, info, red)
}

// The same where rows and columns have one code.
pub fn check_show(
    m: u64,
    t: u64,
    size: u64,
    blocks: u64,
    part: Part,
    info: &[u8],
    red: &[u8],
) -> Result<(), Refusal>
    ensures { verdict_of result ≡ (show_call m t size 0 blocks (part_of part) info.now red.now).verdict }
{
    check_show_col(m, t, size, 0, blocks, part, info, red)
}

// The block or the group of the frame of `blocks` blocks in the lent information and redundancy: M × M bytes of the one or 2 M r of the other, as
// they stand there, and no byte where `check_show` of the same arguments refuses. Constant work.
pub fn show_col<'a, 'b: 'a>(
    m: u64,
    t: u64,
    size: u64,
    col: u64,
    blocks: u64,
    part: Part,
    info: &'a [u8],
    red: &'b [u8],
) -> &'a [u8]
    ensures { result.now ≡ (show_call m t size col blocks (part_of part) info.now red.now).bits }
{
    let Ok(d) = Design::new_col(m, t, size, col) else {
        return &[];
    };
    let Ok(()) = check_frame(d, blocks, part, info, red) else {
        return &[];
    };
    shown_part(d, part, info, red)
}

// The same where rows and columns have one code.
pub fn show<'a, 'b: 'a>(
    m: u64,
    t: u64,
    size: u64,
    blocks: u64,
    part: Part,
    info: &'a [u8],
    red: &'b [u8],
) -> &'a [u8]
    ensures { result.now ≡ (show_call m t size 0 blocks (part_of part) info.now red.now).bits }
{
    show_col(m, t, size, 0, blocks, part, info, red)
}
