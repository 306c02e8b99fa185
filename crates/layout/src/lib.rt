// The words of frames of every kind, by lines, as code holds them.
//   Shape, Frames, Line   the kinds of frames; frames of a design; a line of them
//   line_at, line_count   a line, and how many there are
//   word_bits, tail_bits  the bits of a word, and those of each of the two parts behind its blocks
//   rows_first, rows_second   whether a word of a line has a row of its two blocks, or a column
//   turned, turned_position   whether the words of a line are read backwards, and where a position is then
//   Pass, PassLine, turns, taken   the lines that are taken at once: those that are read forwards, or those that are read backwards
//   word_number           the number of a word among all words of the frame
//
// A line is M words that share no bit. Line k takes block k and block k + 1, the block before the first being block 0, which is not sent, and its words
// cross those of line k - 1 in the first and those of line k + 1 in the second. In feed-forward frames an even line has rows of both blocks, and behind
// them those of X and Q; an odd one has columns, and those of Y and P. In original frames a line has columns of the first block and rows of the second,
// and nothing behind them.
//
// All words are read in one code: the column words of a mirrored design are read backwards. A new kind of frame is a case of each function.
#![tactic(auto)]

ghost use Rattle.std.specs.Prelude.{◌≡◌, ◌+◌, ◌*◌, ◌≤◌, ◌<◌};
ghost use Rattle.staircase.specs.Design.{most-M, most-blocks};
ghost use Rattle.design.specs.Sizes.{params_of};
ghost use Rattle.layout.specs.Layouts.{lines_in, bits_in, tail_in, turns_in, turned_in, turn_in, taken_in, rows_first, rows_second};

use design::Design;

// The kinds of frames.
#[derive(Clone, Copy)]
pub enum Shape {
    FeedForward,
    Original,
}

// Frames of a design, of `blocks` blocks.
#[derive(Clone, Copy)]
pub struct Frames {
    pub d: Design,
    pub shape: Shape,
    pub blocks: usize,
}

// Line k of such frames.
#[derive(Clone, Copy)]
pub struct Line {
    pub frames: Frames,
    pub k: usize,
}

// The lines of some frames that are read backwards, or those that are not.
#[derive(Clone, Copy)]
pub struct Pass {
    pub frames: Frames,
    pub back: bool,
}

// Line k, which a pass may take.
#[derive(Clone, Copy)]
pub struct PassLine {
    pub pass: Pass,
    pub k: usize,
}

// Line k of some frames.
pub fn line_at(frames: Frames, k: usize) -> Line
    ensures { result ≡ record { frames = frames; k = k } }
{
    Line {
        frames: frames,
        k: k,
    }
}

// How many lines there are: two for each group, or one for each block.
pub fn line_count(frames: Frames) -> usize
    requires { frames.blocks ≤ most-blocks }
    ensures { (result ≡ lines_in frames.shape frames.blocks) × (result ≤ 4098) }
{
    let blocks = frames.blocks;
    let shape = frames.shape;
    match shape {
        Shape::FeedForward => blocks + blocks % 2,
        Shape::Original => blocks,
    }
}

// The bits of a word.
pub fn word_bits(frames: Frames) -> usize
    ensures { (result ≡ bits_in frames.shape (params_of frames.d)) × (result < 1048576) }
{
    let d = frames.d;
    let shape = frames.shape;
    match shape {
        Shape::FeedForward => d.n(),
        Shape::Original => 2 * d.size(),
    }
}

// The bits of each of the two parts of a word behind its blocks.
pub fn tail_bits(frames: Frames) -> usize
    ensures { (result ≡ tail_in frames.shape (params_of frames.d)) × (result < 65536) }
{
    let d = frames.d;
    let shape = frames.shape;
    match shape {
        Shape::FeedForward => d.r(),
        Shape::Original => 0,
    }
}

// Whether word a of a line has row a of its first block, and not column a.
pub fn rows_first(line: Line) -> bool
    ensures { result ≡ rows_first line.frames.shape line.k }
{
    let frames = line.frames;
    let shape = frames.shape;
    match shape {
        Shape::FeedForward => line.k % 2 == 0,
        Shape::Original => false,
    }
}

// The same of its second block.
pub fn rows_second(line: Line) -> bool
    ensures { result ≡ rows_second line.frames.shape line.k }
{
    let frames = line.frames;
    let shape = frames.shape;
    match shape {
        Shape::FeedForward => line.k % 2 == 0,
        Shape::Original => true,
    }
}

// Whether there are lines whose words are read backwards: those of the column words of a mirrored design.
pub fn turns(frames: Frames) -> bool
    ensures { result ≡ turns_in frames.shape (params_of frames.d) }
{
    let d = frames.d;
    let shape = frames.shape;
    match shape {
        Shape::FeedForward => d.mirrored(),
        Shape::Original => false,
    }
}

// Whether the words of line k are read backwards.
pub fn turned(frames: Frames, k: usize) -> bool
    ensures { result ≡ turned_in frames.shape (params_of frames.d) k }
{
    if k % 2 == 0 {
        return false;
    }
    turns(frames)
}

// Position p of a word of line k as it is read, in the word as it is written; and back.
pub fn turned_position(frames: Frames, k: usize, p: usize) -> usize
    requires { p < bits_in frames.shape (params_of frames.d) }
    ensures { (result ≡ turn_in frames.shape (params_of frames.d) k p) × (result < bits_in frames.shape (params_of frames.d)) }
{
    if turned(frames, k) {
        return word_bits(frames) - 1 - p;
    }
    p
}

// Whether a pass takes a line.
pub fn taken(at: PassLine) -> bool
    ensures { result ≡ taken_in at.pass.frames.shape (params_of at.pass.frames.d) at.pass.back at.k }
{
    let back = turned(at.pass.frames, at.k);
    if at.pass.back {
        return back;
    }
    !back
}

// The number of word a of a line, among all words of the frame.
pub fn word_number(line: Line, a: usize) -> usize
    requires { (line.k < lines_in line.frames.shape line.frames.blocks) × (line.frames.blocks ≤ most-blocks)
        × (line.frames.d.size ≤ most-M) × (a < line.frames.d.size) }
    ensures { (result ≡ line.k * line.frames.d.size + a)
        × (result < lines_in line.frames.shape line.frames.blocks * line.frames.d.size) × (result ≤ 2049000) }
{
    let d = line.frames.d;
    line.k * d.size() + a
}
