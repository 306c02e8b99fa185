// Corrects the words of a frame's lines, in the buffers that hold them, on kept remainders. It knows no kind of frame from another: what it needs of
// a word is where its bits stand and which other words have them, and `decoder_lines` says that.
//   number_bytes     the bytes of the kept numbers, behind which the marks stand
//   correct_word     corrects a word from its kept number
//   correct_line     corrects the words of a line
//   correct_lines    the words of some lines, one line after the other: a round, or a part of one
//
// A word is never copied, and nothing is summed. The kept number of a word is its remainder, which says at which positions its errors are (crate
// `decoder_locator`). `decoder_lines::site_at` says where these stand in the two lent buffers, and `decoder_flips::flip_all` flips the bits there, each
// with its mark in the bytes behind the numbers. Then the other word that has the bit gets the power of the bit's position in it, and the own number
// becomes 0. A word that has no correction is marked in its number, until one of its bits is flipped: a word whose number is 0 and a marked word are
// passed over; the first is clean, the second is stuck.
#![tactic(auto)]

ghost use Rattle.std.specs.Prelude.{◌≡◌, map, ◌+◌, ◌*◌, ◌^◌, ◌≤◌, ◌<◌, length, get_or, take};
ghost use Rattle.staircase.specs.Lists.{tabulate, concat};
ghost use Rattle.staircase.specs.Design.{most-M, most-blocks};
ghost use Rattle.staircase.specs.Frame.{frame_of};
ghost use Rattle.staircase.specs.Frame.Site.{unsent};
ghost use Rattle.staircase.specs.Decoder.{flip_all, round};
ghost use Rattle.staircase.specs.Outcomes.{outcome, stuck_among};
ghost use Rattle.staircase.specs.Layout.{word_total};
ghost use Rattle.design.specs.Sizes.{params_of};
ghost use Rattle.decoder_flips.specs.Sites.{listed, AllInside, Below};
ghost use Rattle.decoder_flips.specs.Told.{outcome_of};
ghost use Rattle.decoder_flips.specs.Positions.{SentAt};
ghost use Rattle.layout.specs.Layouts.{lines_in, bits_in, red_in};
ghost use Rattle.decoder_lines.specs.Layouts.{layout_of, LineFits, line_word, PowersFit};
ghost use Rattle.decoder_locator.specs.Located.{positions_of, located};
ghost use Rattle.decoder_words.specs.Ready.{WordTables, FramesReady, LineReady, FrameKept, LineMarks, correction_at, AddedAll};

use decoder_flips::{BitSite, Outcome, Pass, Spots};
use decoder_locator::Located;
use layout::{Frames, Line};

// Where the located positions of word a of a line stand.
fn sites_of(line: Line, links: &[u16], a: usize, found: Located) -> Spots
    requires { LineFits line links.now × (a < line.frames.d.size)
        × Below (bits_in line.frames.shape (params_of line.frames.d)) (positions_of found) }
    ensures { (listed result ≡ map (λ j. get_or (line_word line links.now a) j unsent) (positions_of found))
        × (result.count ≡ length (positions_of found))
        × AllInside result (line.frames.blocks * (line.frames.d.size * line.frames.d.size))
        (red_in line.frames.shape (params_of line.frames.d) line.frames.blocks) }
{
    match found {
        Located::Nowhere => Spots {
            count: 0,
            x: BitSite::Absent,
            y: BitSite::Absent,
            z: BitSite::Absent,
        },
        Located::One(p) => {
            let x = decoder_lines::site_at(line, links, a, p);
            Spots {
                count: 1,
                x,
                y: BitSite::Absent,
                z: BitSite::Absent,
            }
        }
        Located::Two(p, q) => {
            let x = decoder_lines::site_at(line, links, a, p);
            let y = decoder_lines::site_at(line, links, a, q);
            Spots {
                count: 2,
                x,
                y,
                z: BitSite::Absent,
            }
        }
        Located::Three(p, q, u) => {
            let x = decoder_lines::site_at(line, links, a, p);
            let y = decoder_lines::site_at(line, links, a, q);
            let z = decoder_lines::site_at(line, links, a, u);
            Spots { count: 3, x, y, z }
        }
    }
}

// The positions of at most t errors of a word, from its remainder.
fn locate_errors(frames: Frames, x: u32, tables: &[u32], field: &[u16]) -> Located
    requires { WordTables frames tables.now field.now × (x < 2 ^ (frames.d.m * frames.d.t)) }
    ensures { positions_of result ≡ located (take (bits_in frames.shape (params_of frames.d)) tables.now) frames.d.t x }
{
    let d = frames.d;
    let n = layout::word_bits(frames);
    let all = tables.len();
    decoder_locator::locate(d.m(), d.t(), x, &tables[0..n], &tables[n..all], field)
}

// The bytes of the kept numbers of a frame, behind which its marks stand.
pub fn number_bytes(frames: Frames) -> usize
    requires { (frames.blocks ≤ most-blocks) × (frames.d.size ≤ most-M) }
    ensures { (result ≡ 4 * (lines_in frames.shape frames.blocks * frames.d.size)) × (result ≤ 8196000) }
{
    let d = frames.d;
    4 * (layout::line_count(frames) * d.size())
}

// Flips the bits at which word a of a line is wrong, each with its mark, and answers their positions. The kept numbers stay those of the frame before.
fn flip_found(
    line: Line,
    a: usize,
    links: &[u16],
    tables: &[u32],
    field: &[u16],
    info: &mut [u8],
    red: &mut [u8],
    kept: &mut [u8],
) -> Located
    requires { LineReady line links.now tables.now field.now × (a < line.frames.d.size)
        × FrameKept line.frames links.now info.old red.old kept.old }
    ensures { (frame_of info.new red.new
        ≡ flip_all (correction_at line links.now (frame_of info.old red.old) a) (frame_of info.old red.old))
        × (correction_at line links.now (frame_of info.old red.old) a
        ≡ map (λ j. get_or (line_word line links.now a) j unsent) (positions_of result))
        × Below (bits_in line.frames.shape (params_of line.frames.d)) (positions_of result)
        × FrameKept line.frames links.now info.old red.old kept.new
        × LineMarks line.frames info.old red.old kept.old info.new red.new kept.new }
{
    let w = layout::word_number(line, a);
    let x = decoder_kept::get(kept, w) % 2147483648;
    let found = locate_errors(line.frames, x, tables, field);
    let spots = sites_of(line, links, a, found);
    if !decoder_flips::all_sent(spots) {
        return Located::Nowhere;
    }
    let n = number_bytes(line.frames);
    let all = kept.len();
    decoder_flips::flip_all(info, red, &mut kept[n..all], spots);
    found
}

// Brings the numbers of the other words that have the bits at the located positions of word a up to date.
fn add_powers(
    line: Line,
    a: usize,
    found: Located,
    links: &[u16],
    positions: &[u32],
    numbers: &mut [u8],
)
    requires { LineFits line links.now × PowersFit line.frames positions.now × (a < line.frames.d.size)
        × SentAt (bits_in line.frames.shape (params_of line.frames.d)) (line_word line links.now a) (positions_of found)
        × (4 * word_total (layout_of line.frames links.now) ≤ length numbers.old) }
    ensures { AddedAll line links.now a (positions_of found) numbers.old numbers.new
        × (length numbers.new ≡ length numbers.old) }
{
    match found {
        Located::Nowhere => {}
        Located::One(p) => {
            decoder_lines::add_power(line, links, positions, a, p, numbers);
        }
        Located::Two(p, q) => {
            decoder_lines::add_power(line, links, positions, a, q, numbers);
            decoder_lines::add_power(line, links, positions, a, p, numbers);
        }
        Located::Three(p, q, u) => {
            decoder_lines::add_power(line, links, positions, a, u, numbers);
            decoder_lines::add_power(line, links, positions, a, q, numbers);
            decoder_lines::add_power(line, links, positions, a, p, numbers);
        }
    }
}

// Corrects word a of a line from its kept number, and answers how many bits it flipped. A word that cannot be corrected is marked.
pub fn correct_word(
    line: Line,
    a: usize,
    links: &[u16],
    tables: &[u32],
    field: &[u16],
    info: &mut [u8],
    red: &mut [u8],
    kept: &mut [u8],
) -> usize
    requires { LineReady line links.now tables.now field.now × (a < line.frames.d.size)
        × FrameKept line.frames links.now info.old red.old kept.old }
    ensures { (frame_of info.new red.new
        ≡ flip_all (correction_at line links.now (frame_of info.old red.old) a) (frame_of info.old red.old))
        × (result ≡ length (correction_at line links.now (frame_of info.old red.old) a))
        × FrameKept line.frames links.now info.new red.new kept.new
        × LineMarks line.frames info.old red.old kept.old info.new red.new kept.new }
{
    let found = flip_found(line, a, links, tables, field, info, red, kept);
    let count = decoder_flips::count_of(found);
    let w = layout::word_number(line, a);
    if count == 0 {
        let x = decoder_kept::get(kept, w) % 2147483648;
        decoder_kept::put(kept, w, x + 2147483648);
        return 0;
    }
    let n = layout::word_bits(line.frames);
    add_powers(line, a, found, links, &tables[0..n], kept);
    decoder_kept::put(kept, w, 0);
    count
}

// Corrects word a of a line, unless its number is 0 or it is marked.
pub fn visit_word(
    line: Line,
    a: usize,
    links: &[u16],
    tables: &[u32],
    field: &[u16],
    info: &mut [u8],
    red: &mut [u8],
    kept: &mut [u8],
) -> Outcome
    requires { LineReady line links.now tables.now field.now × (a < line.frames.d.size)
        × FrameKept line.frames links.now info.old red.old kept.old }
    ensures { (frame_of info.new red.new
        ≡ flip_all (correction_at line links.now (frame_of info.old red.old) a) (frame_of info.old red.old))
        × (outcome_of result ≡ outcome (params_of line.frames.d) (frame_of info.old red.old) (line_word line links.now a))
        × FrameKept line.frames links.now info.new red.new kept.new
        × LineMarks line.frames info.old red.old kept.old info.new red.new kept.new }
{
    let w = layout::word_number(line, a);
    let x = decoder_kept::get(kept, w);
    if x % 2147483648 == 0 {
        return Outcome::Clean;
    }
    if 2147483648 <= x {
        return Outcome::Stuck;
    }
    let count = correct_word(line, a, links, tables, field, info, red, kept);
    decoder_flips::by_count(count)
}

// Corrects the words of a line that are outside the code and not marked, one after the other, and answers how many bits it flipped and how many words
// were stuck, the marked ones among them: at most 500 words, of three flips each.
pub fn correct_line(
    line: Line,
    links: &[u16],
    tables: &[u32],
    field: &[u16],
    info: &mut [u8],
    red: &mut [u8],
    kept: &mut [u8],
) -> Pass
    requires { LineReady line links.now tables.now field.now
        × FrameKept line.frames links.now info.old red.old kept.old }
    ensures { (record { frame = frame_of info.new red.new; flips = result.flips }
        ≡ round (params_of line.frames.d) (tabulate line.frames.d.size (line_word line links.now)) (frame_of info.old red.old))
        × FrameKept line.frames links.now info.new red.new kept.new × (result.flips ≤ 1500)
        × (result.stuck ≡ stuck_among (params_of line.frames.d) (frame_of info.old red.old)
        (tabulate line.frames.d.size (line_word line links.now))) × (result.stuck ≤ 500)
        × LineMarks line.frames info.old red.old kept.old info.new red.new kept.new }
{
    let d = line.frames.d;
    let size = d.size();
    let mut flips = 0;
    let mut stuck = 0;
    for a in 0..size {
        let told = visit_word(line, a, links, tables, field, info, red, kept);
        flips += decoder_flips::flips_of(told);
        stuck += decoder_flips::stuck_of(told);
    }
    Pass { flips, stuck }
}

// Corrects the words of `count` lines from a line on, line by line, and answers how many bits it flipped and how many words were stuck: a round, or a
// part of one.
pub fn correct_lines(
    line: Line,
    count: usize,
    links: &[u16],
    tables: &[u32],
    field: &[u16],
    info: &mut [u8],
    red: &mut [u8],
    kept: &mut [u8],
) -> Pass
    requires { FramesReady line.frames links.now tables.now field.now × (line.k + count ≤ lines_in line.frames.shape line.frames.blocks)
        × FrameKept line.frames links.now info.old red.old kept.old }
    ensures { (record { frame = frame_of info.new red.new; flips = result.flips }
        ≡ round (params_of line.frames.d) (concat count (λ i. tabulate line.frames.d.size
        ((layout_of line.frames links.now).sites (line.k + i)))) (frame_of info.old red.old))
        × FrameKept line.frames links.now info.new red.new kept.new × (result.flips ≤ 1500 * count)
        × (result.stuck ≡ stuck_among (params_of line.frames.d) (frame_of info.old red.old)
        (concat count (λ i. tabulate line.frames.d.size ((layout_of line.frames links.now).sites (line.k + i))))) × (result.stuck ≤ 500 * count)
        × LineMarks line.frames info.old red.old kept.old info.new red.new kept.new }
{
    let mut flips = 0;
    let mut stuck = 0;
    for i in 0..count {
        let here = layout::line_at(line.frames, line.k + i);
        let more = correct_line(here, links, tables, field, info, red, kept);
        flips += more.flips;
        stuck += more.stuck;
    }
    Pass { flips, stuck }
}
