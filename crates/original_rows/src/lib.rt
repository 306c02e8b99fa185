// The word checker of original staircase frames: how many rows of a buffer are outside the code.
//   check_buffer      rules 4 to 6 for a buffer of blocks
//   check_words       the word checker: rules 1, 2, 19, 4, 6 and 10, then the count (crate `words_lines`)
#![tactic(auto)]

ghost use Rattle.std.specs.Prelude.{◌≡◌};
ghost use Rattle.staircase.specs.Frame.{outside_each};
ghost use Rattle.answers.specs.Answers.{verdict_of, counted_of};
ghost use Rattle.original.specs.Frame.{buffer_of, row_words};
ghost use Rattle.original.specs.Calls.{original_words_call};
ghost use Rattle.design.specs.Sizes.{params_of};
ghost use Rattle.original_rows.specs.Rows.{BufferFits, received_rules};

use answers::Refusal;
use design::Design;
use layout::{Frames, Shape};

// How many rows of a buffer of blocks are outside the code. One step for each bit of the rows, or for each eight by tables of sums.
fn count_outside(d: Design, blocks: usize, buffer: &[u8]) -> u64
    requires { BufferFits d blocks buffer.now }
    ensures { result ≡ outside_each (buffer_of buffer.now) (row_words (params_of d) blocks) }
{
    let frames = Frames {
        d,
        shape: Shape::Original,
        blocks,
    };
    words_lines::count_outside(frames, &[], &[], buffer, &[])
}

// Rules 4, 6 and 10 for a buffer of blocks. One pass over it.
fn check_received(d: Design, blocks: u64, buffer: &[u8]) -> Result<(), Refusal>
    ensures { verdict_of result ≡ received_rules (params_of d) blocks buffer.now }
{
    rules::check_buffer(blocks, 0, rules::original_due(d, blocks), buffer, 0)
}

// The word checker: how many rows of the lent buffer of `blocks` blocks are outside the code, or the table's number and place of the first of rules 1,
// 2, 19, 4, 6 and 10 that refuses. The work is one step for each bit of the rows, two for each bit of the buffer.
pub fn check_words_col(
    m: u64,
    t: u64,
    size: u64,
    col: u64,
    blocks: u64,
    buffer: &[u8],
) -> Result<u64, Refusal>
    ensures { counted_of result ≡ original_words_call m t size col blocks buffer.now }
{
    let d = Design::of_original_col(m, t, size, col)?;
    check_received(d, blocks, buffer)?;
    Ok(count_outside(d, blocks as usize, buffer))
}

// The same where rows and columns have one code.
pub fn check_words(m: u64, t: u64, size: u64, blocks: u64, buffer: &[u8]) -> Result<u64, Refusal>
    ensures { counted_of result ≡ original_words_call m t size 0 blocks buffer.now }
{
    check_words_col(m, t, size, 0, blocks, buffer)
}
