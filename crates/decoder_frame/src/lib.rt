// Document 01's rounds, over the words of a received frame whose sizes are known, in place.
//   fill_tables     the tables of a kind of frame, which correcting reads
//   table_entries, field_entries   working entries for them
//   fill_kept       the remainders of all words of a frame of any kind, as their kept numbers
//   rounds_allowed  the limit that a number of rounds stands for
//   run_rounds      corrects the words of some groups again and again, until a round flips nothing or the limit is reached
//   position_count  the positions of a window that slides over a frame
//   run_window      the same at each position of a window that slides over a frame; one that has all groups has one position
//
// The remainders of all words are summed once, line by line, in the order in which their bits stand in memory (crate `words`): in a frame of many bits by
// tables of sums, which are made before (crate `words_tables`). They are kept in working bytes (crate `decoder_kept`), behind which stand the marks of the
// frame's bits. A round takes the lines one after the other and corrects the words whose kept number is not 0 (crate `decoder_words`), which keeps all
// numbers and marks right. Rounds end after one that flips nothing. The words outside the code at the end are those whose number is not 0; the stuck
// words are counted by each round, and those of the last one are told.
//
// Numbers are right for all words of the frame, whichever lines are corrected. So the remainders are computed once per frame; each window position only
// inspects those of its own words, and corrects the words that are outside the code.
#![tactic(auto)]

ghost use Rattle.std.specs.Prelude.{◌≡◌, true, false, ◌+◌, ◌-◌, ◌*◌, ◌^◌, ◌≤◌, ◌<◌, length};
ghost use Rattle.staircase.specs.Design.{most-blocks, most-rounds};
ghost use Rattle.staircase.specs.Frame.{frame_of, groups};
ghost use Rattle.staircase.specs.Decoder.{run_each, rounds_allowed};
ghost use Rattle.staircase.specs.Outcomes.{last_stuck};
ghost use Rattle.staircase.specs.Window.{positions, slide, slide_stuck};
ghost use Rattle.staircase.specs.Layout.{kept_length};
ghost use Rattle.design.specs.Sizes.{params_of};
ghost use Rattle.layout.specs.Layouts.{feed_frames, lines_in, bits_in, tail_in};
ghost use Rattle.words_tables.specs.Tables.{table_length, MayParts};
ghost use Rattle.words_lines.specs.Words.{layout_with, ReadTable, FramesLent};
ghost use Rattle.decoder_lines.specs.Links.{lists_in};
ghost use Rattle.decoder_tables.specs.Sizes.{WordSizes};
ghost use Rattle.decoder_words.specs.Ready.{WordTables, FramesReady, FrameKept, LineMarks};
ghost use Rattle.decoder_frame.specs.Filled.{LineFilled, PassFilled, Filled};
ghost use Rattle.decoder_frame.specs.Stretch.{stretch_words, read_window, WindowFits};

use layout::{Frames, Line, Pass, PassLine};

// "A rounds number of 0 now stands for 12"
const DEFAULT_ROUNDS: usize = 12;

// Rounds made, bits flipped, and words that were stuck in the last round made.
#[derive(Clone, Copy)]
pub struct Made {
    pub rounds: usize,
    pub flips: usize,
    pub stuck: usize,
}

// How many groups stand in a window, and how many rounds are allowed at each of its positions.
#[derive(Clone, Copy)]
pub struct Window {
    pub groups: usize,
    pub limit: usize,
}

// How many lines are corrected in a round, and how many rounds are allowed.
#[derive(Clone, Copy)]
pub struct Stretch {
    pub lines: usize,
    pub limit: usize,
}

// Fills the tables of some frames: the powers of x at the positions of a word, behind them their values and then those of four bits, and the field's.
pub fn fill_tables(frames: Frames, tables: &mut [u32], field: &mut [u16])
    requires { WordSizes frames.d.m frames.d.t (bits_in frames.shape (params_of frames.d))
        × (length tables.old ≡ bits_in frames.shape (params_of frames.d) + (bits_in frames.shape (params_of frames.d) + 128))
        × (length field.old ≡ 4 * 2 ^ frames.d.m) }
    ensures { WordTables frames tables.new field.new }
{
    let d = frames.d;
    let m = d.m();
    let t = d.t();
    let bits = layout::word_bits(frames);
    decoder_tables::fill_tables(m, t, bits, tables, field);
}

// Working entries for the positions of a word with their values and those of four bits, and for a field. Only their lengths are told: the most that a
// design needs, or more. A word has at most 2^10 - 1 bits, and behind the values of its positions stand 128 of four bits; a field has four tables of at most
// 2^10 entries.
pub fn table_entries() -> [u32; 2304]
    ensures { 2304 ≡ length result }
{
    [0; 2304]
}

pub fn field_entries() -> [u16; 4096]
    ensures { 4096 ≡ length result }
{
    [0; 4096]
}

// The rounds that a number of rounds stands for.
pub fn rounds_allowed(rounds: u64) -> usize
    requires { rounds ≤ most-rounds }
    ensures { (result ≡ rounds_allowed rounds) × (result ≤ most-rounds) × (1 ≤ result) }
{
    if rounds == 0 {
        return DEFAULT_ROUNDS;
    }
    rounds as usize
}

// Fills the kept numbers of a line, if the pass takes it.
fn fill_line(
    at: PassLine,
    own: &[u8],
    parity: &[u8],
    info: &[u8],
    red: &[u8],
    positions: &[u32],
    tables: &[u32],
    numbers: &mut [u8],
)
    requires { FramesLent at.pass.frames own.now parity.now info.now red.now × (at.k < lines_in at.pass.frames.shape at.pass.frames.blocks)
        × ReadTable at.pass.frames.shape (params_of at.pass.frames.d) at.pass.back positions.now × (length numbers.old ≡ 4 * (lines_in at.pass.frames.shape at.pass.frames.blocks * at.pass.frames.d.size))
        × MayParts positions.now at.pass.frames.d.size (tail_in at.pass.frames.shape (params_of at.pass.frames.d)) tables.now }
    ensures { (length numbers.new ≡ length numbers.old)
        × LineFilled at own.now parity.now (frame_of info.now red.now) numbers.old numbers.new }
{
    if !layout::taken(at) {
        return;
    }
    let line = layout::line_at(at.pass.frames, at.k);
    let size = at.pass.frames.d.size();
    let from = at.k * size;
    let mut sums = words_lines::sum_entries();
    words_lines::line_remainders(
        line,
        own,
        parity,
        info,
        red,
        positions,
        tables,
        &mut sums[0..size],
    );
    decoder_kept::put_numbers(&sums[0..size], from, numbers);
}

// Fills the kept numbers of the lines that a pass takes.
fn fill_pass(
    pass: Pass,
    own: &[u8],
    parity: &[u8],
    info: &[u8],
    red: &[u8],
    positions: &[u32],
    tables: &[u32],
    numbers: &mut [u8],
)
    requires { FramesLent pass.frames own.now parity.now info.now red.now × ReadTable pass.frames.shape (params_of pass.frames.d) pass.back positions.now
        × (length numbers.old ≡ 4 * (lines_in pass.frames.shape pass.frames.blocks * pass.frames.d.size)) × MayParts positions.now pass.frames.d.size (tail_in pass.frames.shape (params_of pass.frames.d)) tables.now }
    ensures { (length numbers.new ≡ length numbers.old)
        × PassFilled pass own.now parity.now (frame_of info.now red.now) (lines_in pass.frames.shape pass.frames.blocks) numbers.old numbers.new }
{
    let lines = layout::line_count(pass.frames);
    for k in 0..lines {
        let at = PassLine { pass, k };
        fill_line(at, own, parity, info, red, positions, tables, numbers);
    }
}

// Fills the kept numbers of the words that are read backwards, with the tables for words that are not.
fn fill_back(
    frames: Frames,
    own: &[u8],
    parity: &[u8],
    info: &[u8],
    red: &[u8],
    positions: &[u32],
    tables: &mut [u32],
    numbers: &mut [u8],
)
    requires { FramesLent frames own.now parity.now info.now red.now × ReadTable frames.shape (params_of frames.d) false positions.now
        × (length numbers.old ≡ 4 * (lines_in frames.shape frames.blocks * frames.d.size)) × MayParts positions.now frames.d.size (tail_in frames.shape (params_of frames.d)) tables.old }
    ensures { (length numbers.new ≡ length numbers.old)
        × PassFilled (record { frames = frames; back = true }) own.now parity.now (frame_of info.now red.now) (lines_in frames.shape frames.blocks) numbers.old numbers.new }
{
    let n = positions.len();
    let pass = Pass { frames, back: true };
    let mut back = [0u32; 1024];
    words_lines::turn_tables(frames, positions, &mut back[0..n], tables);
    fill_pass(pass, own, parity, info, red, &back[0..n], tables, numbers);
}

// `fill_numbers` with the tables of sums for words that are read forwards, or none.
fn fill_both(
    frames: Frames,
    own: &[u8],
    parity: &[u8],
    info: &[u8],
    red: &[u8],
    positions: &[u32],
    tables: &mut [u32],
    numbers: &mut [u8],
)
    requires { FramesLent frames own.now parity.now info.now red.now × ReadTable frames.shape (params_of frames.d) false positions.now
        × (length numbers.old ≡ 4 * (lines_in frames.shape frames.blocks * frames.d.size)) × MayParts positions.now frames.d.size (tail_in frames.shape (params_of frames.d)) tables.old }
    ensures { (length numbers.new ≡ length numbers.old)
        × Filled frames own.now parity.now (frame_of info.now red.now) numbers.new }
{
    let pass = Pass {
        frames,
        back: false,
    };
    fill_pass(pass, own, parity, info, red, positions, tables, numbers);
    if layout::turns(frames) {
        fill_back(frames, own, parity, info, red, positions, tables, numbers);
    }
}

// `fill_numbers` by tables of sums, which are to have `due` entries.
fn fill_by_tables(
    frames: Frames,
    own: &[u8],
    parity: &[u8],
    info: &[u8],
    red: &[u8],
    positions: &[u32],
    due: usize,
    numbers: &mut [u8],
)
    requires { FramesLent frames own.now parity.now info.now red.now × ReadTable frames.shape (params_of frames.d) false positions.now
        × (length numbers.old ≡ 4 * (lines_in frames.shape frames.blocks * frames.d.size)) × (due ≤ 36864)
        × (due ≡ 2 * table_length frames.d.size + 2 * table_length (tail_in frames.shape (params_of frames.d))) }
    ensures { (length numbers.new ≡ length numbers.old)
        × Filled frames own.now parity.now (frame_of info.now red.now) numbers.new }
{
    let size = frames.d.size();
    let tail = layout::tail_bits(frames);
    let mut tables = words_tables::entries();
    words_tables::fill_parts(positions, size, tail, &mut tables[0..due]);
    fill_both(
        frames,
        own,
        parity,
        info,
        red,
        positions,
        &mut tables[0..due],
        numbers,
    );
}

// `fill_kept` with the table of powers and the numbers alone, by tables of sums where they pay for themselves.
fn fill_numbers(
    frames: Frames,
    own: &[u8],
    parity: &[u8],
    info: &[u8],
    red: &[u8],
    positions: &[u32],
    numbers: &mut [u8],
)
    requires { FramesLent frames own.now parity.now info.now red.now × ReadTable frames.shape (params_of frames.d) false positions.now
        × (length numbers.old ≡ 4 * (lines_in frames.shape frames.blocks * frames.d.size)) }
    ensures { (length numbers.new ≡ length numbers.old)
        × Filled frames own.now parity.now (frame_of info.now red.now) numbers.new }
{
    let due = words_tables::parts_due(frames.blocks, frames.d.size(), layout::tail_bits(frames));
    if due == 0 {
        let mut none = [0u32; 0];
        fill_both(
            frames, own, parity, info, red, positions, &mut none, numbers,
        );
        return;
    }
    fill_by_tables(frames, own, parity, info, red, positions, due, numbers);
}

// Fills the kept numbers of all words of a frame, which stand first in `kept`; what follows them is room for the marks of its bits, and stays. One step for
// each bit of the words, or for each eight by tables of sums.
pub fn fill_kept(
    frames: Frames,
    own: &[u8],
    parity: &[u8],
    info: &[u8],
    red: &[u8],
    kept: &mut [u8],
)
    requires { FramesLent frames own.now parity.now info.now red.now × (length kept.old ≡ kept_length (layout_with frames own.now parity.now)) }
    ensures { (length kept.new ≡ length kept.old)
        × Filled frames own.now parity.now (frame_of info.now red.now) kept.new }
{
    let bits = layout::word_bits(frames);
    let m = frames.d.m();
    let t = frames.d.t();
    let n = decoder_words::number_bytes(frames);
    let mut positions = [0u32; 1024];
    words_positions::fill_code(m, t, &mut positions[0..bits]);
    fill_numbers(
        frames,
        own,
        parity,
        info,
        red,
        &positions[0..bits],
        &mut kept[0..n],
    );
}

// Corrects the words of some lines, of which `line` is the first, until a round flips nothing or the rounds that are allowed are made.
pub fn run_rounds(
    line: Line,
    stretch: Stretch,
    links: &[u16],
    tables: &[u32],
    field: &[u16],
    info: &mut [u8],
    red: &mut [u8],
    kept: &mut [u8],
) -> Made
    requires { FramesReady line.frames links.now tables.now field.now
        × (line.k + stretch.lines ≤ lines_in line.frames.shape line.frames.blocks)
        × (1 ≤ stretch.limit) × (stretch.limit ≤ most-rounds) × FrameKept line.frames links.now info.old red.old kept.old }
    ensures { (record { frame = frame_of info.new red.new; rounds = result.rounds; flips = result.flips }
        ≡ run_each (stretch_words line links.now stretch.lines) stretch.limit (frame_of info.old red.old))
        × (result.stuck ≡ last_stuck (stretch_words line links.now stretch.lines) stretch.limit (frame_of info.old red.old))
        × FrameKept line.frames links.now info.new red.new kept.new
        × (result.rounds ≤ most-rounds) × (result.flips ≤ most-rounds * 6147000)
        × LineMarks line.frames info.old red.old kept.old info.new red.new kept.new }
{
    let lines = stretch.lines;
    let limit = stretch.limit;
    let mut flips = 0;
    let mut stuck = 0;
    for k in 0..limit {
        let more: decoder_flips::Pass = decoder_words::correct_lines(
            line, lines, links, tables, field, info, red, kept,
        );
        flips += more.flips;
        stuck = more.stuck;
        if more.flips == 0 {
            return Made {
                rounds: k + 1,
                flips,
                stuck,
            };
        }
    }
    Made {
        rounds: limit,
        flips,
        stuck,
    }
}

// The groups of a frame of `blocks` blocks.
fn group_count(blocks: usize) -> usize
    requires { blocks ≤ most-blocks }
    ensures { result ≡ groups blocks }
{
    blocks.div_ceil(2)
}

// How many positions a window has, over a frame of `blocks` blocks.
pub fn position_count(blocks: usize, window: Window) -> usize
    requires { (blocks ≤ most-blocks) × WindowFits blocks window }
    ensures { (result ≡ positions (groups blocks) window.groups) × (result ≤ 2049) }
{
    group_count(blocks) - window.groups + 1
}

// The lines of the groups of a window.
fn stretch_of(window: Window) -> Stretch
    requires { window.groups ≤ 2049 }
    ensures { result ≡ record { lines = 2 * window.groups; limit = window.limit } }
{
    Stretch {
        lines: 2 * window.groups,
        limit: window.limit,
    }
}

// Runs the rounds of a window at each of its positions, from the first group of a feed-forward frame to the last at which all of its groups are the frame's.
pub fn run_window(
    frames: Frames,
    window: Window,
    links: &[u16],
    tables: &[u32],
    field: &[u16],
    info: &mut [u8],
    red: &mut [u8],
    kept: &mut [u8],
) -> Made
    requires { FramesReady (feed_frames frames.d frames.blocks) links.now tables.now field.now × WindowFits frames.blocks window
        × FrameKept (feed_frames frames.d frames.blocks) links.now info.old red.old kept.old
        × (frames ≡ feed_frames frames.d frames.blocks) }
    ensures { (record { frame = frame_of info.new red.new; rounds = result.rounds; flips = result.flips }
        ≡ slide (read_window (params_of frames.d) (lists_in frames.d links.now) frames.blocks window.groups)
        (positions (groups frames.blocks) window.groups) window.limit (frame_of info.old red.old))
        × (result.stuck ≡ slide_stuck (read_window (params_of frames.d) (lists_in frames.d links.now) frames.blocks window.groups)
        (groups frames.blocks - window.groups) window.limit (frame_of info.old red.old))
        × FrameKept (feed_frames frames.d frames.blocks) links.now info.new red.new kept.new
        × LineMarks (feed_frames frames.d frames.blocks) info.old red.old kept.old info.new red.new kept.new }
{
    let count = position_count(frames.blocks, window);
    let mut rounds = 0;
    let mut flips = 0;
    let mut stuck = 0;
    for p in 0..count {
        let here = layout::line_at(frames, 2 * p);
        let made = run_rounds(
            here,
            stretch_of(window),
            links,
            tables,
            field,
            info,
            red,
            kept,
        );
        rounds += made.rounds;
        flips += made.flips;
        stuck = made.stuck;
    }
    Made {
        rounds,
        flips,
        stuck,
    }
}
