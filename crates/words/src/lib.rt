// The word checker of feed-forward frames: how many words of a frame as it is received are outside the code.
//   check_received    rules 4 to 7 and 10 for a frame and its lists
//   check_words       the word checker: rules 1 to 4, 6, 7 and 10, then the count (crate `words_lines`)
#![tactic(auto)]

ghost use Rattle.std.specs.Prelude.{◌≡◌, length};
ghost use Rattle.staircase.specs.Frame.{outside, frame_of};
ghost use Rattle.staircase.specs.Calls.{words_call};
ghost use Rattle.design.specs.Answers.{Allowed};
ghost use Rattle.design.specs.Sizes.{params_of, lists_of};
ghost use Rattle.rules.specs.Received.{Received};
ghost use Rattle.words.specs.Checks.{received_rules, ListsAsked};
ghost use Rattle.answers.specs.Answers.{verdict_of, counted_of};

use answers::Refusal;
use design::Design;
use layout::{Frames, Shape};
use rules::Lengths;

// What a call is asked for: a frame of so many blocks, so many rounds, and lists and working bytes of the lengths that are due.
#[derive(Clone, Copy)]
pub struct Asked {
    pub blocks: u64,
    pub rounds: u64,
    pub due: Lengths,
}

// Rules 4 to 7 and 10, for a received frame of an allowed design. Of the working bytes, whose length is judged as it is asked, one is used for each
// entry of a list.
pub fn check_received(
    d: Design,
    asked: Asked,
    own: &[u8],
    parity: &[u8],
    info: &[u8],
    red: &[u8],
    work: &mut [u8],
) -> Result<(), Refusal>
    requires { Allowed d × ListsAsked d asked }
    ensures { verdict_of result ≡ received_rules (params_of d) asked.blocks asked.rounds asked.due own.now parity.now
        info.now red.now (length work.old) }
{
    let have = Lengths {
        own: own.len(),
        parity: parity.len(),
        inverse: 0,
        info: info.len(),
        red: red.len(),
        work: work.len(),
    };
    let due = rules::frame_due(d, asked.blocks, asked.due);
    rules::check_frame(asked.blocks, asked.rounds, have, due)?;
    let n = d.order();
    rules::check_bytes(d, own, parity, &own[..0], info, red, &mut work[0..n])
}

// How many words of a frame are outside the code, once all rules have passed.
fn count_received(
    d: Design,
    blocks: usize,
    own: &[u8],
    parity: &[u8],
    info: &[u8],
    red: &[u8],
) -> u64
    requires { Received d blocks own.now parity.now info.now red.now }
    ensures { result
        ≡ outside (params_of d) (lists_of d own.now parity.now) blocks (frame_of info.now red.now) }
{
    let frames = Frames {
        d,
        shape: Shape::FeedForward,
        blocks,
    };
    words_lines::count_outside(frames, own, parity, info, red)
}

// The word checker: how many words of the lent frame of `blocks` blocks are outside the code, or the table's number and place of the first of rules
// 1 to 4, 6, 7 and 10 that refuses. The lists and the frame are lent to read. The working bytes are one for each entry of a list, and free
// afterwards. The work is one step for each bit of the words.
pub fn check_words_col(
    m: u64,
    t: u64,
    size: u64,
    col: u64,
    blocks: u64,
    own: &[u8],
    parity: &[u8],
    info: &[u8],
    red: &[u8],
    work: &mut [u8],
) -> Result<u64, Refusal>
    ensures { counted_of result ≡ words_call m t size col blocks own.now parity.now info.now red.now
        (length work.old) }
{
    let d = Design::new_col(m, t, size, col)?;
    let asked = Asked {
        blocks,
        rounds: 0,
        due: rules::lists_due(d),
    };
    check_received(d, asked, own, parity, info, red, work)?;
    Ok(count_received(d, blocks as usize, own, parity, info, red))
}

// The same where rows and columns have one code.
pub fn check_words(
    m: u64,
    t: u64,
    size: u64,
    blocks: u64,
    own: &[u8],
    parity: &[u8],
    info: &[u8],
    red: &[u8],
    work: &mut [u8],
) -> Result<u64, Refusal>
    ensures { counted_of result ≡ words_call m t size 0 blocks own.now parity.now info.now red.now
        (length work.old) }
{
    check_words_col(m, t, size, 0, blocks, own, parity, info, red, work)
}
