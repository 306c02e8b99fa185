// The decoder: rules 1 to 7 and 10 of document 01's table, with a window rule 18 too, then rounds over the words of the received frame, in place (crate
// `decoder_frame`). Without a window they are those of a window that has all groups.
//   decode          corrects a frame, and counts rounds, bits that differ from the received frame's, words outside the code at the end, and stuck words
//                   of the last round made
//   decode_window   the same, with a window that slides over the frame
//   decode_with_col   `decode` with one more check, which is asked last
//   decode_col, decode_window_col   `decode` and `decode_window` with a column code
#![tactic(auto)]

ghost use Rattle.std.specs.Prelude.{◌≡◌, ◌+◌, ◌≤◌, length, Ok};
ghost use Rattle.staircase.specs.Design.{most-blocks, most-rounds};
ghost use Rattle.staircase.specs.Frame.{frame_of, groups};
ghost use Rattle.staircase.specs.Decoder.{rounds_allowed};
ghost use Rattle.staircase.specs.Rules.{kept_work};
ghost use Rattle.staircase.specs.Rules.Verdict.{accepted};
ghost use Rattle.staircase.specs.Calls.{decode_call};
ghost use Rattle.staircase.specs.Tally.{decode_with, further_call};
ghost use Rattle.staircase.specs.Window.{positions, window_groups, window_call};
ghost use Rattle.design.specs.Answers.{Allowed};
ghost use Rattle.design.specs.Sizes.{params_of, order_of, lists_of};
ghost use Rattle.rules.specs.Received.{Received};
ghost use Rattle.decoder_lines.specs.Links.{lists_in};
ghost use Rattle.decoder_words.specs.Ready.{FramesReady, FrameKept};
ghost use Rattle.decoder_frame.specs.Filled.{Filled};
ghost use Rattle.layout.specs.Layouts.{feed_frames};
ghost use Rattle.decoder_frame.specs.Stretch.{WindowFits};
ghost use Rattle.decoder.specs.Answers.{copy_rules, window_numbers, corrected_frame, answered};
ghost use Rattle.answers.specs.Answers.{verdict_of, corrected_of};

use answers::{Counts, Refusal};
use decoder_frame::Window;
use design::Design;
use layout::{Frames, Shape};
use words::Asked;

// What a call asks: a design, a frame's blocks, the rounds and the groups of a window, and a check before and one behind the rules on the frame.
#[derive(Clone, Copy)]
struct Call {
    m: u64,
    t: u64,
    size: u64,
    col: u64,
    blocks: u64,
    rounds: u64,
    window: u64,
    first: Result<(), Refusal>,
    last: Result<(), Refusal>,
}

// Working entries for the table of links. Only their number is told: a list has at most 4,096 entries.
fn link_entries() -> [u16; 16384]
    ensures { 16384 ≡ length result }
{
    [0; 16384]
}

// The counts of a frame whose words are all in the code: one idle round at each position of a window.
fn idle_counts(blocks: usize, window: Window) -> Counts
    requires { (blocks ≤ most-blocks) × WindowFits blocks window }
    ensures { result ≡ record { rounds = positions (groups blocks) window.groups; turned = 0; outside = 0; stuck = 0 } }
{
    Counts {
        rounds: decoder_frame::position_count(blocks, window) as u64,
        turned: 0,
        outside: 0,
        stuck: 0,
    }
}

// Runs the rounds of a window over a frame with all tables, and counts. The kept numbers of its words stand first in `kept`, and behind them is room for
// the marks of its bits.
fn correct_lines(
    frames: Frames,
    window: Window,
    links: &[u16],
    tables: &[u32],
    field: &[u16],
    info: &mut [u8],
    red: &mut [u8],
    kept: &mut [u8],
) -> Counts
    requires { FramesReady (feed_frames frames.d frames.blocks) links.now tables.now field.now × WindowFits frames.blocks window
        × FrameKept (feed_frames frames.d frames.blocks) links.now info.old red.old kept.old
        × (frames ≡ feed_frames frames.d frames.blocks) }
    ensures { corrected_of (Ok result) (frame_of info.new red.new)
        ≡ corrected_frame (params_of frames.d) (lists_in frames.d links.now) frames.blocks window.groups window.limit
        (frame_of info.old red.old) }
{
    let n = decoder_words::number_bytes(frames);
    let all = kept.len();
    decoder_marks::clear(&mut kept[n..all]);
    let made = decoder_frame::run_window(frames, window, links, tables, field, info, red, kept);
    let turned = decoder_marks::count(&kept[n..all]);
    let outside = decoder_kept::count(&kept[..], n / 4);
    Counts {
        rounds: made.rounds as u64,
        turned,
        outside,
        stuck: made.stuck as u64,
    }
}

// Corrects a frame whose words are not all in the code, from the kept numbers of its words, and counts. The tables are filled here, so that a frame
// without errors does not pay for them.
fn correct_words(
    frames: Frames,
    window: Window,
    own: &[u8],
    parity: &[u8],
    info: &mut [u8],
    red: &mut [u8],
    kept: &mut [u8],
) -> Counts
    requires { Received frames.d frames.blocks own.now parity.now info.old red.old × (frames ≡ feed_frames frames.d frames.blocks) × WindowFits frames.blocks window
        × (length kept.old ≡ kept_work (params_of frames.d) frames.blocks)
        × Filled frames own.now parity.now (frame_of info.old red.old) kept.old }
    ensures { corrected_of (Ok result) (frame_of info.new red.new)
        ≡ corrected_frame (params_of frames.d) (lists_of frames.d own.now parity.now) frames.blocks window.groups window.limit
        (frame_of info.old red.old) }
{
    let d = frames.d;
    let n = d.order();
    let due = 2 * d.n() + 128;
    let powers = 1 << d.m();
    let mut tables = decoder_frame::table_entries();
    let mut field = decoder_frame::field_entries();
    let mut links = link_entries();
    decoder_frame::fill_tables(frames, &mut tables[0..due], &mut field[0..4 * powers]);
    decoder_lines::fill_links(d, own, parity, &mut links[0..4 * n]);
    correct_lines(
        frames,
        window,
        &links[0..4 * n],
        &tables[0..due],
        &field[0..4 * powers],
        info,
        red,
        kept,
    )
}

// Fills the kept numbers of a frame, and corrects it where not all words are in the code. Where they are, no round is run and only the numbers are
// filled: each position of the window would have a single idle round.
fn correct_kept(
    frames: Frames,
    window: Window,
    own: &[u8],
    parity: &[u8],
    info: &mut [u8],
    red: &mut [u8],
    kept: &mut [u8],
) -> Counts
    requires { Received frames.d frames.blocks own.now parity.now info.old red.old × (frames ≡ feed_frames frames.d frames.blocks) × WindowFits frames.blocks window
        × (length kept.old ≡ kept_work (params_of frames.d) frames.blocks) }
    ensures { corrected_of (Ok result) (frame_of info.new red.new)
        ≡ corrected_frame (params_of frames.d) (lists_of frames.d own.now parity.now) frames.blocks window.groups window.limit
        (frame_of info.old red.old) }
{
    decoder_frame::fill_kept(frames, own, parity, &info[..], &red[..], kept);
    let n = decoder_words::number_bytes(frames);
    let wrong = decoder_kept::count(&kept[..], n / 4);
    if wrong == 0 {
        return idle_counts(frames.blocks, window);
    }
    correct_words(frames, window, own, parity, info, red, kept)
}

// Corrects a received frame whose arguments have passed all rules, and counts. The working bytes that follow those of the lists are what the decoder keeps.
fn correct_frame(
    d: Design,
    blocks: usize,
    window: Window,
    own: &[u8],
    parity: &[u8],
    info: &mut [u8],
    red: &mut [u8],
    work: &mut [u8],
) -> Counts
    requires { Received d blocks own.now parity.now info.old red.old
        × (length work.old ≡ order_of d + kept_work (params_of d) blocks) × WindowFits blocks window }
    ensures { corrected_of (Ok result) (frame_of info.new red.new)
        ≡ corrected_frame (params_of d) (lists_of d own.now parity.now) blocks window.groups window.limit
        (frame_of info.old red.old) }
{
    let frames = Frames {
        d,
        shape: Shape::FeedForward,
        blocks,
    };
    let n = d.order();
    let all = work.len();
    correct_kept(frames, window, own, parity, info, red, &mut work[n..all])
}

// The groups of a frame that stand in a window of `window` groups, and the rounds that are allowed at each of its positions.
fn window_of(blocks: u64, rounds: u64, window: u64) -> Window
    requires { (blocks ≤ most-blocks) × (rounds ≤ most-rounds) }
    ensures { (result ≡ record { groups = window_groups (groups blocks) window; limit = rounds_allowed rounds })
        × (1 ≤ result.limit) × (result.limit ≤ most-rounds) }
{
    let limit = decoder_frame::rounds_allowed(rounds);
    let count = design::group_count(blocks);
    if window < count {
        return Window {
            groups: window as usize,
            limit,
        };
    }
    Window {
        groups: count as usize,
        limit,
    }
}

// Rules 4 to 7 and 10 for a frame that is to be decoded.
fn check_copy(
    d: Design,
    blocks: u64,
    rounds: u64,
    own: &[u8],
    parity: &[u8],
    info: &[u8],
    red: &[u8],
    work: &mut [u8],
) -> Result<(), Refusal>
    requires { Allowed d }
    ensures { verdict_of result ≡ copy_rules (params_of d) blocks rounds own.now parity.now info.now red.now
        (length work.old) }
{
    let asked = Asked {
        blocks,
        rounds,
        due: rules::decoder_due(d, blocks),
    };
    words::check_received(d, asked, own, parity, info, red, work)
}

// Answers a call: rules 1 to 3, then its first check, rules 4 to 7 and 10, and its last check; and where none refuses, the rounds of its window. All
// is judged before a bit is flipped.
fn answer_call(
    call: Call,
    own: &[u8],
    parity: &[u8],
    info: &mut [u8],
    red: &mut [u8],
    work: &mut [u8],
) -> Result<Counts, Refusal>
    requires { (verdict_of call.first ≡ accepted) → (1 ≤ call.blocks) → (1 ≤ call.window) }
    ensures { corrected_of result (frame_of info.new red.new)
        ≡ answered call own.now parity.now info.old red.old (length work.old) }
{
    let d = Design::new_col(call.m, call.t, call.size, call.col)?;
    call.first?;
    check_copy(
        d,
        call.blocks,
        call.rounds,
        own,
        parity,
        &info[..],
        &red[..],
        work,
    )?;
    call.last?;
    let window = window_of(call.blocks, call.rounds, call.window);
    Ok(correct_frame(
        d,
        call.blocks as usize,
        window,
        own,
        parity,
        info,
        red,
        work,
    ))
}

// Corrects a frame as `decode` does, with one more check behind its rules: where none of them refuses, `last` may. The check is asked before a bit is
// flipped. A window of as many groups as there are blocks has all groups.
pub fn decode_with_col(
    last: Result<(), Refusal>,
    m: u64,
    t: u64,
    size: u64,
    col: u64,
    blocks: u64,
    rounds: u64,
    own: &[u8],
    parity: &[u8],
    info: &mut [u8],
    red: &mut [u8],
    work: &mut [u8],
) -> Result<Counts, Refusal>
    ensures { corrected_of result (frame_of info.new red.new)
        ≡ further_call (verdict_of last) (decode_with m t size col blocks rounds own.now parity.now info.old red.old
        (length work.old)) }
{
    let call = Call {
        m,
        t,
        size,
        col,
        blocks,
        rounds,
        window: blocks,
        first: Ok(()),
        last,
    };
    answer_call(call, own, parity, info, red, work)
}

// Rules 4, 5 and 18: the numbers of a call with a window.
fn check_numbers(blocks: u64, rounds: u64, window: u64) -> Result<(), Refusal>
    ensures { verdict_of result ≡ window_numbers blocks rounds window }
{
    design::check_count(blocks)?;
    design::check_rounds(rounds)?;
    design::check_window(window)
}

// Corrects the lent frame as `decode` does, but with a window of `window` groups that slides over it: the rounds are those of its groups, and begin anew,
// up to `rounds` of them, at each of its positions, from the first group to the last at which it ends with the frame. Refuses by the first of rules 1
// to 5, 18, 6, 7 and 10; a refused frame is left as it was. Working bytes as `decode`'s. The remainders of the words are summed once, so the work is
// that of `decode` and, for each position, a look at each word of its groups.
pub fn decode_window_col(
    m: u64,
    t: u64,
    size: u64,
    col: u64,
    blocks: u64,
    rounds: u64,
    window: u64,
    own: &[u8],
    parity: &[u8],
    info: &mut [u8],
    red: &mut [u8],
    work: &mut [u8],
) -> Result<Counts, Refusal>
    ensures { corrected_of result (frame_of info.new red.new)
        ≡ window_call m t size col blocks rounds window own.now parity.now info.old red.old
        (length work.old) }
{
    let numbers = check_numbers(blocks, rounds, window);
    let call = Call {
        m,
        t,
        size,
        col,
        blocks,
        rounds,
        window,
        first: numbers,
        last: Ok(()),
    };
    answer_call(call, own, parity, info, red, work)
}

// The same where rows and columns have one code.
pub fn decode_window(
    m: u64,
    t: u64,
    size: u64,
    blocks: u64,
    rounds: u64,
    window: u64,
    own: &[u8],
    parity: &[u8],
    info: &mut [u8],
    red: &mut [u8],
    work: &mut [u8],
) -> Result<Counts, Refusal>
    ensures { corrected_of result (frame_of info.new red.new)
        ≡ window_call m t size 0 blocks rounds window own.now parity.now info.old red.old
        (length work.old) }
{
    decode_window_col(
        m, t, size, 0, blocks, rounds, window, own, parity, info, red, work,
    )
}

// Corrects the lent frame of `blocks` blocks in place, in at most `rounds` rounds, 0 standing for 12, or refuses it by the first of rules 1 to 7 and
// 10; a refused frame is left as it was. The working bytes are one for each entry of a list, four for each word and one for eight bits of the frame, and
// free afterwards. The work is one step for each bit of the words, and some more for each word that is outside the code when a round meets it.
pub fn decode_col(
    m: u64,
    t: u64,
    size: u64,
    col: u64,
    blocks: u64,
    rounds: u64,
    own: &[u8],
    parity: &[u8],
    info: &mut [u8],
    red: &mut [u8],
    work: &mut [u8],
) -> Result<Counts, Refusal>
    ensures { corrected_of result (frame_of info.new red.new)
        ≡ decode_call m t size col blocks rounds own.now parity.now info.old red.old (length work.old) }
{
    decode_with_col(
        Ok(()),
        m,
        t,
        size,
        col,
        blocks,
        rounds,
        own,
        parity,
        info,
        red,
        work,
    )
}

// The same where rows and columns have one code.
pub fn decode(
    m: u64,
    t: u64,
    size: u64,
    blocks: u64,
    rounds: u64,
    own: &[u8],
    parity: &[u8],
    info: &mut [u8],
    red: &mut [u8],
    work: &mut [u8],
) -> Result<Counts, Refusal>
    ensures { corrected_of result (frame_of info.new red.new)
        ≡ decode_call m t size 0 blocks rounds own.now parity.now info.old red.old (length work.old) }
{
    decode_col(m, t, size, 0, blocks, rounds, own, parity, info, red, work)
}
