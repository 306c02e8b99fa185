// The designs of feed-forward and of original staircase codes, and those rules of document 01's table that speak of numbers alone.
//   Design::new(m, t, size)                     rules 1 to 3: the design of a feed-forward code, or its refusal
//   Design::of_original(m, t, size)             rules 1, 2 and 19: the design of an original staircase code, or its refusal
//   Design::new_col, Design::of_original_col    the same with a column code
//   m, t, size, mirrored                        the numbers of a design
//   r, area, n, k, order, row_bytes, row_bits   its sizes: n, k, order and row_bytes of a feed-forward code, row_bits of an original one
//   check_count(blocks), check_rounds(rounds)   rules 4 and 5
//   check_batch(frames)                         rule 17
//   check_window(window)                        rule 18
//   MOST_BLOCKS, group_count                    the most blocks of a frame; the groups of a frame
//   MOST_FRAMES                                 the most frames of a batch
//
// `verdict_of` of specs/ gives the table's number and place of each answer, and each contract says that the answer is the verdict of the rule in the
// crates `staircase` and `original`, for every argument that the `requires` line lets in.
//
// The ranges are tested before anything is multiplied, so any numbers may be given. A design's fields are private, so another crate has no design but
// those that the rules of a kind accept; which kind it is stands in the contracts, as `Allowed` or `AllowedOriginal`, and not in the type, so that what
// both kinds do is written once. The fields have the smallest types that hold the limits, so that the sizes fit whatever the fields hold.
#![tactic(auto)]

ghost use Rattle.std.specs.Prelude.{◌≡◌, not, cond, ◌+◌, ◌*◌, ◌/◌, ◌≤◌, ◌<◌, eqb};
ghost use Rattle.staircase.specs.Design.{most-blocks, params};
ghost use Rattle.staircase.specs.Frame.{groups};
ghost use Rattle.staircase.specs.Rules.{out_of_range, ◌then◌, size_rule, long_rule, large_rule, design_rules, count_rule, rounds_rule};
ghost use Rattle.staircase.specs.Rules.Verdict.{accepted};
ghost use Rattle.staircase.specs.Batch.{batch_rule};
ghost use Rattle.staircase.specs.Window.{window_rule};
ghost use Rattle.original.specs.Rules.{row_long_rule, thin_rule, original_rules};
ghost use Rattle.answers.specs.Answers.{refusal_verdict, verdict_of};
ghost use Rattle.design.specs.Answers.{DesignIs, DesignAllowed, DesignOriginal};

use answers::Refusal;

// A design: its field's degree m, the errors t that a word may have, M, the rows and columns of a block, as `size`, and the column code, 0 for the same code
// as that of row words, 1 for the mirrored one.
#[derive(Clone, Copy, Debug, PartialEq, Eq)]
pub struct Design {
    m: u8,
    t: u8,
    size: u16,
    col: u8,
}

// "L from 1 to 4,096"
pub const MOST_BLOCKS: u64 = 4096;

// Rule 5: "above 64".
const MOST_ROUNDS: u64 = 64;

// Rule 17: "0 or above 256".
pub const MOST_FRAMES: u64 = 256;

// Rule 18: "0 or above 64".
const MOST_WINDOW: u64 = 64;

// `x` is not from `low` to `high`. Constant work.
pub fn out_of_range(low: u64, high: u64, x: u64) -> bool
    ensures { result ≡ out_of_range low high x }
{
    if x < low {
        return true;
    }
    high < x
}

// Rule 1 for the four numbers of a design. Constant work, as in the three functions below.
fn check_size(m: u64, t: u64, size: u64, col: u64) -> Result<(), Refusal>
    ensures { verdict_of result ≡ size_rule m t size col }
{
    if out_of_range(Design::LEAST_M, Design::MOST_M, m) {
        return Err(Refusal::Size(1));
    }
    if out_of_range(1, Design::MOST_T, t) {
        return Err(Refusal::Size(2));
    }
    if out_of_range(1, Design::MOST_SIZE, size) {
        return Err(Refusal::Size(3));
    }
    if Design::MOST_COL < col {
        return Err(Refusal::Size(4));
    }
    Ok(())
}

// The design of four numbers that rule 1 accepts, as they are.
fn design_of(m: u64, t: u64, size: u64, col: u64) -> Design
    requires { size_rule m t size col ≡ accepted }
    ensures { (result.m ≡ m) × (result.t ≡ t) × (result.size ≡ size) × (result.col ≡ col) }
{
    Design {
        m: m as u8,
        t: t as u8,
        size: size as u16,
        col: col as u8,
    }
}

// The design of a feed-forward code of numbers that rule 1 accepts, or the first of rules 2 and 3 that refuses it.
fn feed_forward(m: u64, t: u64, size: u64, col: u64) -> Result<Design, Refusal>
    requires { size_rule m t size col ≡ accepted }
    ensures { (verdict_of result ≡ (long_rule m (params m t size col) then large_rule (params m t size col))) × DesignIs result m t size col × DesignAllowed result }
{
    let r = m * t;
    let n = 2 * size + 2 * r;
    let longest = (1 << m) - 1;
    if longest < n {
        return Err(Refusal::Long(n));
    }
    let order = size * r;
    if Design::MOST_ORDER < order {
        return Err(Refusal::Large(order));
    }
    Ok(design_of(m, t, size, col))
}

// The design of an original staircase code of numbers that rule 1 accepts, or the first of rules 2, which reads 2M for n, and 19 that refuses it.
fn original(m: u64, t: u64, size: u64, col: u64) -> Result<Design, Refusal>
    requires { size_rule m t size col ≡ accepted }
    ensures { (verdict_of result ≡ (row_long_rule m (params m t size col) then thin_rule (params m t size col))) × DesignIs result m t size col × DesignOriginal result }
{
    let n = 2 * size;
    let longest = (1 << m) - 1;
    if longest < n {
        return Err(Refusal::Long(n));
    }
    let r = m * t;
    if size <= r {
        return Err(Refusal::Thin(r));
    }
    Ok(design_of(m, t, size, col))
}

// "these limits belong to the design itself"
impl Design {
    pub const LEAST_M: u64 = 4;

    pub const MOST_M: u64 = 10;

    pub const MOST_T: u64 = 3;

    pub const MOST_SIZE: u64 = 500;

    pub const MOST_COL: u64 = 1;

    pub const MOST_ORDER: u64 = 4096;

    // The design of m, t, M = `size` and the column code, or the first of rules 1 to 3 that refuses it. A design that is made keeps to the limits. Constant
    // work, as in the functions below.
    pub fn new_col(m: u64, t: u64, size: u64, col: u64) -> Result<Design, Refusal>
        ensures { (verdict_of result ≡ design_rules m t size col) × DesignIs result m t size col × DesignAllowed result }
    {
        check_size(m, t, size, col)?;
        feed_forward(m, t, size, col)
    }

    // The same where rows and columns have one code.
    pub fn new(m: u64, t: u64, size: u64) -> Result<Design, Refusal>
        ensures { (verdict_of result ≡ design_rules m t size 0) × DesignIs result m t size 0 × DesignAllowed result }
    {
        Design::new_col(m, t, size, 0)
    }

    // The design of an original staircase code of m, t and M = `size`, or the first of rules 1, 2 and 19 that refuses it. The column code is judged and has no
    // other effect: all words are rows.
    pub fn of_original_col(m: u64, t: u64, size: u64, col: u64) -> Result<Design, Refusal>
        ensures { (verdict_of result ≡ original_rules m t size col) × DesignIs result m t size col × DesignOriginal result }
    {
        check_size(m, t, size, col)?;
        original(m, t, size, col)
    }

    // The same without a column code.
    pub fn of_original(m: u64, t: u64, size: u64) -> Result<Design, Refusal>
        ensures { (verdict_of result ≡ original_rules m t size 0) × DesignIs result m t size 0 × DesignOriginal result }
    {
        Design::of_original_col(m, t, size, 0)
    }

    // m, the degree of the design's field.
    pub fn m(self) -> usize
        ensures { result ≡ self.m }
    {
        self.m as usize
    }

    // t, the errors that a word may have.
    pub fn t(self) -> usize
        ensures { result ≡ self.t }
    {
        self.t as usize
    }

    // M, the rows and columns of a block.
    pub fn size(self) -> usize
        ensures { result ≡ self.size }
    {
        self.size as usize
    }

    // Column words are in the mirrored code.
    pub fn mirrored(self) -> bool
        ensures { result ≡ not (eqb self.col 0) }
    {
        self.col != 0
    }

    // r, the redundancy bits of a word.
    pub fn r(self) -> usize
        ensures { (result ≡ self.m * self.t) × (result < 65536) }
    {
        (self.m as usize) * (self.t as usize)
    }

    // n, the bits of a word.
    pub fn n(self) -> usize
        ensures { (result ≡ 2 * self.size + 2 * (self.m * self.t)) × (result < 262144) }
    {
        2 * (self.size as usize) + 2 * self.r()
    }

    // 2M, the bits of a word of an original code.
    pub fn row_bits(self) -> usize
        ensures { (result ≡ 2 * self.size) × (result < 131072) }
    {
        2 * (self.size as usize)
    }

    // k, the information bits of a word.
    pub fn k(self) -> usize
        ensures { (result ≡ 2 * self.size + self.m * self.t) × (result < 262144) }
    {
        2 * (self.size as usize) + self.r()
    }

    // M × r: entries of a list, bits of Y and of P, rows of the inverse.
    pub fn order(self) -> usize
        ensures { (result ≡ self.size * (self.m * self.t)) × (result < 4294967296) }
    {
        (self.size as usize) * self.r()
    }

    // M × M: bits of a block.
    pub fn area(self) -> usize
        ensures { (result ≡ self.size * self.size) × (result < 4294967296) }
    {
        (self.size as usize) * (self.size as usize)
    }

    // Bytes of a row of the inverse: M × r bits, rounded up.
    pub fn row_bytes(self) -> usize
        ensures { (result ≡ (self.size * (self.m * self.t) + 7) / 8) × (result ≤ 536870912) }
    {
        (self.order() + 7) / 8
    }
}

// Passed where x is from 1 to `most`, else the refusal. Constant work, as in the functions below.
fn check_range(most: u64, x: u64, refusal: Refusal) -> Result<(), Refusal>
    ensures { verdict_of result ≡ cond (out_of_range 1 most x) (refusal_verdict refusal) accepted }
{
    if out_of_range(1, most, x) {
        return Err(refusal);
    }
    Ok(())
}

// Rule 4 for a number of blocks.
pub fn check_count(blocks: u64) -> Result<(), Refusal>
    ensures { verdict_of result ≡ count_rule blocks }
{
    check_range(MOST_BLOCKS, blocks, Refusal::Count(blocks))
}

// Rule 5 for a number of rounds.
pub fn check_rounds(rounds: u64) -> Result<(), Refusal>
    ensures { verdict_of result ≡ rounds_rule rounds }
{
    if MOST_ROUNDS < rounds {
        return Err(Refusal::Rounds(rounds));
    }
    Ok(())
}

// Rule 17 for a number of frames.
pub fn check_batch(frames: u64) -> Result<(), Refusal>
    ensures { verdict_of result ≡ batch_rule frames }
{
    check_range(MOST_FRAMES, frames, Refusal::Batch(frames))
}

// Rule 18 for the groups of a window.
pub fn check_window(window: u64) -> Result<(), Refusal>
    ensures { verdict_of result ≡ window_rule window }
{
    check_range(MOST_WINDOW, window, Refusal::Window(window))
}

// G, the groups of a frame of `blocks` blocks.
pub fn group_count(blocks: u64) -> u64
    requires { blocks ≤ most-blocks }
    ensures { result ≡ groups blocks }
{
    (blocks + 1) / 2
}
