// Lists for low error floors: spread lists and mixed lists.
//   spread_lists_col(m, t, size, col, own, parity), spread_lists(m, t, size, own, parity)   rules 1 to 3, 15 and 6, and both spread lists
//   mixed_lists_col(m, t, size, col, seed, own, parity), mixed_lists(m, t, size, seed, own, parity)   the same rules, and both mixed lists of a seed
//
// Column j of X is turned down by j rows, column j of Q by r + j, modulo M, so that two redundancy bits of one row word never meet in one column word
// (`spread-apart` of the crate `staircase`). Spread lists keep each column to itself; while rows and columns use one code, no kit has such lists:
// `kit_maker::make_inverse` refuses them by rule 14 (`spread-singular` there). Mixed lists send row a, column j to the same column word, in a row that is
// drawn (module `mixing`): the bits never meet either (`mixed-apart`), and about 3 in 10 of such lists have an inverse. All rules are judged before the
// first byte is written, so a refused call leaves both lists as they were.
#![tactic(auto)]

mod mixing;

ghost use Rattle.std.specs.Prelude.{◌≡◌, ◌+◌, ◌*◌, ◌/◌, ◌%◌, ◌<◌, length, set};
ghost use Rattle.staircase.specs.Rules.{◌then◌, list_lengths};
ghost use Rattle.staircase.specs.Spread.{turned_to, list_bytes, narrow_rule, spread_verdict, spread_call};
ghost use Rattle.staircase.specs.Mixed.{mixed_call};
ghost use Rattle.design.specs.Answers.{DesignIs, Allowed, DesignAllowed};
ghost use Rattle.design.specs.Sizes.{params_of, order_of};
ghost use Rattle.answers.specs.Answers.{verdict_of};
ghost use Rattle.generator.specs.Answers.{load_state};

use answers::Refusal;
use design::Design;

// Rule 15. Constant work.
fn check_narrow(d: Design) -> Result<(), Refusal>
    ensures { verdict_of result ≡ narrow_rule (params_of d) }
{
    let size = d.size();
    if size < 2 * d.r() {
        return Err(Refusal::Narrow(size as u64));
    }
    Ok(())
}

// Rules 15 and 6. Constant work.
fn check_lists(d: Design, own: &[u8], parity: &[u8]) -> Result<(), Refusal>
    ensures { verdict_of result ≡ (narrow_rule (params_of d) then list_lengths (params_of d) own.now parity.now) }
{
    check_narrow(d)?;
    rules::check_list_lengths(d, own, parity)
}

// The design of two lists that are to be filled: rules 1 to 3, 15 and 6. Constant work.
fn list_design(
    m: u64,
    t: u64,
    size: u64,
    col: u64,
    own: &[u8],
    parity: &[u8],
) -> Result<Design, Refusal>
    ensures { (verdict_of result ≡ spread_verdict m t size col own.now parity.now) × DesignIs result m t size col × DesignAllowed result }
{
    let d = Design::new_col(m, t, size, col)?;
    check_lists(d, own, parity)?;
    Ok(d)
}

// The place to which place p goes, where column j is turned down by `by` + j rows.
fn turned_to(d: Design, by: usize, p: usize) -> usize
    requires { Allowed d × (by < 65536) × (p < order_of d) }
    ensures { (result ≡ turned_to (params_of d) by p) × (result < order_of d) }
{
    let size = d.size();
    let row = p % size;
    p - row + (row + by + p / size) % size
}

// Stores entry p of a list: "two bytes an entry, low byte first".
fn store_entry(list: &mut [u8], p: usize, e: usize)
    requires { 2 * p + 1 < length list.old }
    ensures { list.new ≡ set (set list.old (2 * p) (e % 256)) (2 * p + 1) (e / 256 % 256) }
{
    let [low, high, ..] = e.to_le_bytes();
    list[2 * p] = low;
    list[2 * p + 1] = high;
}

// Fills a list with the places to which its columns are turned.
fn fill_turned(d: Design, by: usize, list: &mut [u8])
    requires { Allowed d × (by < 65536) × (length list.old ≡ 2 * order_of d) }
    ensures { list.new ≡ list_bytes (order_of d) (turned_to (params_of d) by) }
{
    let n = d.order();
    // kept as an index loop: a proof cannot tell what a loop over `chunks_exact_mut` has written.
    for p in 0..n {
        let e = turned_to(d, by, p);
        store_entry(list, p, e);
    }
}

// Fills both lists with the spread lists of a design: rules 1 to 3, 15 and 6 (places 1 and 2), with the number and place of the first that refuses. A
// list has two bytes an entry, M × r entries; what it held is not read, and a refusal leaves both as they were. A few steps for each entry.
pub fn spread_lists_col(
    m: u64,
    t: u64,
    size: u64,
    col: u64,
    own: &mut [u8],
    parity: &mut [u8],
) -> Result<(), Refusal>
    ensures { (verdict_of result ≡ (spread_call m t size col own.old parity.old).verdict)
        × (own.new ≡ (spread_call m t size col own.old parity.old).self)
        × (parity.new ≡ (spread_call m t size col own.old parity.old).parity) }
{
    let d = list_design(m, t, size, col, own, parity)?;
    fill_turned(d, 0, own);
    fill_turned(d, d.r(), parity);
    Ok(())
}

// The same where rows and columns have one code.
pub fn spread_lists(
    m: u64,
    t: u64,
    size: u64,
    own: &mut [u8],
    parity: &mut [u8],
) -> Result<(), Refusal>
    ensures { (verdict_of result ≡ (spread_call m t size 0 own.old parity.old).verdict)
        × (own.new ≡ (spread_call m t size 0 own.old parity.old).self)
        × (parity.new ≡ (spread_call m t size 0 own.old parity.old).parity) }
{
    spread_lists_col(m, t, size, 0, own, parity)
}

// Fills both lists with the mixed lists of a design and a seed, and answers the generator's last state, from which a host may go on with the next pair:
// rules 1 to 3, 15 and 6 (places 1 and 2), with the number and place of the first that refuses. A list has two bytes an entry, M × r entries; what it
// held is not read, and a refusal leaves both as they were. Sixteen steps of the generator for each entry but M.
pub fn mixed_lists_col(
    m: u64,
    t: u64,
    size: u64,
    col: u64,
    seed: u32,
    own: &mut [u8],
    parity: &mut [u8],
) -> Result<u32, Refusal>
    ensures { let c = mixed_call m t size col seed own.old parity.old in
        (verdict_of result ≡ c.verdict) × (own.new ≡ c.self) × (parity.new ≡ c.parity) × (load_state result ≡ c.state) }
{
    let d = list_design(m, t, size, col, own, parity)?;
    let between = mixing::mix_list(d, 0, seed, own);
    Ok(mixing::mix_list(d, d.r(), between, parity))
}

// The same where rows and columns have one code.
pub fn mixed_lists(
    m: u64,
    t: u64,
    size: u64,
    seed: u32,
    own: &mut [u8],
    parity: &mut [u8],
) -> Result<u32, Refusal>
    ensures { let c = mixed_call m t size 0 seed own.old parity.old in
        (verdict_of result ≡ c.verdict) × (own.new ≡ c.self) × (parity.new ≡ c.parity) × (load_state result ≡ c.state) }
{
    mixed_lists_col(m, t, size, 0, seed, own, parity)
}
