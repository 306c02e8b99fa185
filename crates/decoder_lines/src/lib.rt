// The words of frames of every kind, by lines (crate `layout`): where their bits stand, and the other word that has a bit.
//   fill_links            the table of links of feed-forward frames, from the two lists
//   site_at               where a position of a word, as it is read, stands in the buffers of a frame
//   crossing_word         the other word that has the bit at a position of a word, and the position, both as they are read
//   add_power             adds the power of that position to the word's kept number, and takes its mark away
//
// In the redundancy the two lines of a group cross, and the table of links says where: entry q is the place in Y and then P of place q of X and then Q,
// and entry 2n + q the way back, for lists of n entries. Original frames have no links.
//
// All words are read in one code: the column words of a mirrored design are read backwards.
#![tactic(auto)]

ghost use Rattle.std.specs.Prelude.{◌≡◌, true, cond, [], ◌∷◌, ℕ, ◌+◌, ◌*◌, ◌/◌, ◌%◌, ◌≤◌, ◌<◌, length, get_or};
ghost use Rattle.staircase.specs.Design.{most-blocks};
ghost use Rattle.staircase.specs.Frame.{block_at, groups};
ghost use Rattle.staircase.specs.Frame.Site.{unsent, in_red};
ghost use Rattle.staircase.specs.Decoder.{all_sent};
ghost use Rattle.staircase.specs.Lines.{even, incidence, partner};
ghost use Rattle.staircase.specs.Layout.{word_total};
ghost use Rattle.design.specs.Answers.{Allowed};
ghost use Rattle.design.specs.Sizes.{params_of, order_of, lists_of};
ghost use Rattle.rules.specs.Received.{ListsFit};
ghost use Rattle.decoder_kept.specs.Words.{AddedAt};
ghost use Rattle.decoder_flips.specs.Sites.{sites_of, Inside};
ghost use Rattle.decoder_lines.specs.Links.{lists_in, LinksFit, incidence_of};
ghost use Rattle.layout.specs.Layouts.{bits_in, across_in, crossing_in, red_in};
ghost use Rattle.decoder_lines.specs.Layouts.{layout_of, LineFits, line_word, straight_word, places_at, PowersFit};

use decoder_flips::BitSite;
use design::Design;
use layout::Line;

// A position of a word of a line.
#[derive(Clone, Copy)]
pub struct WordBit {
    pub line: usize,
    pub word: usize,
    pub position: usize,
}

// Entry q of the part of a table that begins at `from`.
fn link_at(links: &[u16], from: usize, q: usize) -> usize
    requires { from + q < length links.now }
    ensures { (result ≡ get_or links.now (from + q) 0) × (result < 65536) }
{
    usize::from(links[from + q])
}

// Place (row, column) of a matrix with `width` columns, row by row.
fn place(row: usize, width: usize, column: usize) -> usize
    requires { (row ≤ 8192) × (width ≤ 1024) × (column ≤ 1024) }
    ensures { (result ≡ row * width + column) × (result ≤ 8389632) }
{
    row * width + column
}

// Where the lists send place q of X and then Q: a place of Y and then P.
fn sent_to(d: Design, own: &[u8], parity: &[u8], q: usize) -> usize
    requires { Allowed d × ListsFit d own.now parity.now × (q < 2 * order_of d) }
    ensures { (result ≡ partner (params_of d) (lists_of d own.now parity.now) true q) × (result < 2 * order_of d) }
{
    let n = d.order();
    if q < n {
        return rules::entry(own, q);
    }
    n + rules::entry(parity, q - n)
}

// Fills the table of links. Two steps for each entry of a list.
pub fn fill_links(d: Design, own: &[u8], parity: &[u8], links: &mut [u16])
    requires { Allowed d × ListsFit d own.now parity.now × (length links.old ≡ 4 * order_of d) }
    ensures { LinksFit d links.new × (lists_in d links.new ≡ lists_of d own.now parity.now) }
{
    let half = 2 * d.order();
    // kept as an index loop: each step writes two entries, and the first says where the second stands
    for q in 0..half {
        let f = sent_to(d, own, parity, q);
        links[q] = f as u16;
        links[half + f] = q as u16;
    }
}

// Where bit c of block b stands.
fn block_site(d: Design, blocks: usize, b: usize, c: usize) -> BitSite
    requires { (b ≤ most-blocks + 2) × (c < d.size * d.size) }
    ensures { (sites_of result ≡ block_at (params_of d) blocks b c ∷ []) × ((n : ℕ) → Inside result (blocks * (d.size * d.size)) n) }
{
    if b < 1 {
        return BitSite::Unsent;
    }
    if blocks <= b - 1 {
        return BitSite::Unsent;
    }
    BitSite::Info((b - 1) * d.area() + c)
}

// Where bit q of a group, which is Y and then P, stands.
fn group_site(d: Design, blocks: usize, i: usize, q: usize) -> BitSite
    requires { (blocks ≤ most-blocks) × (i < groups blocks) × (q < 2 * order_of d) }
    ensures { (sites_of result ≡ in_red (i * (2 * order_of d) + q) ∷ []) × ((n : ℕ) → Inside result n (groups blocks * (2 * order_of d))) }
{
    BitSite::Red(i * (2 * d.order()) + q)
}

// Where bit c of row a of a block stands in it; or of column a.
fn block_bit(rows: bool, size: usize, a: usize, c: usize) -> usize
    requires { (size ≤ 1024) × (a < size) × (c < size) }
    ensures { (result ≡ cond rows (a * size + c) (c * size + a)) × (result < size * size) }
{
    if rows {
        return place(a, size, c);
    }
    place(c, size, a)
}

// The bit of a group, which is Y and then P, at place q of X and then Q for an even line, and of Y and then P for an odd one.
fn group_bit(d: Design, k: usize, links: &[u16], q: usize) -> usize
    requires { LinksFit d links.now × (q < 2 * order_of d) }
    ensures { (result ≡ cond (even k) (partner (params_of d) (lists_in d links.now) true q) q) × (result < 2 * order_of d) }
{
    if k % 2 == 0 {
        return link_at(links, 0, q);
    }
    q
}

// Where position p of word a of a line, as it is written, stands.
fn straight_site(line: Line, links: &[u16], a: usize, p: usize) -> BitSite
    requires { LineFits line links.now × (a < line.frames.d.size) × (p < bits_in line.frames.shape (params_of line.frames.d)) }
    ensures { (sites_of result ≡ get_or (straight_word line links.now a) p unsent ∷ [])
        × Inside result (line.frames.blocks * (line.frames.d.size * line.frames.d.size))
        (red_in line.frames.shape (params_of line.frames.d) line.frames.blocks) }
{
    let d = line.frames.d;
    let blocks = line.frames.blocks;
    let size = d.size();
    let k = line.k;
    if p < size {
        return block_site(
            d,
            blocks,
            k,
            block_bit(layout::rows_first(line), size, a, p),
        );
    }
    if p < 2 * size {
        return block_site(
            d,
            blocks,
            k + 1,
            block_bit(layout::rows_second(line), size, a, p - size),
        );
    }
    let q = place(p - 2 * size, size, a);
    group_site(d, blocks, k / 2, group_bit(d, k, links, q))
}

// Where position p of word a of a line, as it is read, stands.
pub fn site_at(line: Line, links: &[u16], a: usize, p: usize) -> BitSite
    requires { LineFits line links.now × (a < line.frames.d.size) × (p < bits_in line.frames.shape (params_of line.frames.d)) }
    ensures { (sites_of result ≡ get_or (line_word line links.now a) p unsent ∷ [])
        × Inside result (line.frames.blocks * (line.frames.d.size * line.frames.d.size))
        (red_in line.frames.shape (params_of line.frames.d) line.frames.blocks) }
{
    let q = layout::turned_position(line.frames, line.k, p);
    straight_site(line, links, a, q)
}

// Column f / size, row f % size of X and Q, or of Y and P side by side.
fn red_bit(line: usize, f: usize, size: usize) -> WordBit
    requires { (0 < size) × (size ≤ 500) × (f < 65536) }
    ensures { incidence_of result ≡ incidence line (f % size) (2 * size + f / size) }
{
    WordBit {
        line,
        word: f % size,
        position: 2 * size + f / size,
    }
}

// The other word that has the bit at position p of word a of a line, both as they are written.
fn straight_crossing(line: Line, links: &[u16], a: usize, p: usize) -> WordBit
    requires { LineFits line links.now × (a < line.frames.d.size) × (p < bits_in line.frames.shape (params_of line.frames.d))
        × (p < line.frames.d.size → 1 ≤ line.k) }
    ensures { incidence_of result
        ≡ across_in line.frames.shape (params_of line.frames.d) (lists_in line.frames.d links.now) line.k a p }
{
    let d = line.frames.d;
    let size = d.size();
    let k = line.k;
    if p < size {
        return WordBit {
            line: k - 1,
            word: p,
            position: size + a,
        };
    }
    if p < 2 * size {
        return WordBit {
            line: k + 1,
            word: p - size,
            position: a,
        };
    }
    let q = place(p - 2 * size, size, a);
    if k % 2 == 0 {
        let f = link_at(links, 0, q);
        return red_bit(k + 1, f, size);
    }
    let f = link_at(links, 2 * d.order(), q);
    red_bit(k - 1, f, size)
}

// The other word that has the bit, which is sent, at position p of word a of a line, both as they are read.
fn crossing_word(line: Line, links: &[u16], a: usize, p: usize) -> WordBit
    requires { LineFits line links.now × (a < line.frames.d.size) × (p < bits_in line.frames.shape (params_of line.frames.d))
        × (all_sent (get_or (line_word line links.now a) p unsent ∷ []) ≡ true) }
    ensures { incidence_of result
        ≡ crossing_in line.frames.shape (params_of line.frames.d) (lists_in line.frames.d links.now) line.k a p }
{
    let q = layout::turned_position(line.frames, line.k, p);
    let c = straight_crossing(line, links, a, q);
    let at = layout::turned_position(line.frames, c.line, c.position);
    WordBit {
        line: c.line,
        word: c.word,
        position: at,
    }
}

// Adds the power of the bit at position p of word a of a line, which is sent, to the kept number of the other word that has it, if the frame has that
// word, and takes its mark away.
pub fn add_power(
    line: Line,
    links: &[u16],
    positions: &[u32],
    a: usize,
    p: usize,
    numbers: &mut [u8],
)
    requires { LineFits line links.now × PowersFit line.frames positions.now
        × (a < line.frames.d.size) × (p < bits_in line.frames.shape (params_of line.frames.d))
        × (4 * word_total (layout_of line.frames links.now) ≤ length numbers.old)
        × (all_sent (get_or (line_word line links.now a) p unsent ∷ []) ≡ true) }
    ensures { AddedAt (params_of line.frames.d) (word_total (layout_of line.frames links.now))
        (places_at line links.now a p) numbers.old numbers.new }
{
    let c = crossing_word(line, links, a, p);
    let d = line.frames.d;
    if c.line < layout::line_count(line.frames) {
        let w = place(c.line, d.size(), c.word);
        let at = c.position;
        decoder_kept::add(numbers, w, positions[at]);
    }
}
