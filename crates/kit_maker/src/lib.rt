// The maker of a kit's inverse: rules 1 to 3, 6, 7 and 14 of the table, and the inverse of A.
//   make_inverse   judges a design and its lists, and makes the inverse
//
// The working bytes are the one matrix in which the crate `matrix_elimination` inverts: the left halves of its first rows are filled with the rows of
// A, and once A is inverted the right halves are the packed inverse. The inverse's buffer is written only then, so a refusal leaves it as it was.
#![tactic(auto)]

ghost use Rattle.std.specs.Prelude.{◌≡◌, ℕ, ◌+◌, ◌*◌, ◌≤◌, ◌<◌, length};
ghost use Rattle.staircase.specs.Design.{most-order, column_code};
ghost use Rattle.staircase.specs.Lists.{tabulate};
ghost use Rattle.staircase.specs.System.{system_entry, row_bytes};
ghost use Rattle.staircase.specs.Rules.{◌then◌, entries, list_rule};
ghost use Rattle.staircase.specs.Maker.{singular_rule, made_by, make_call};
ghost use Rattle.design.specs.Sizes.{params_of, order_of, lists_of};
ghost use Rattle.answers.specs.Answers.{verdict_of};
ghost use Rattle.matrix_elimination.specs.Steps.{row_width, left};
ghost use Rattle.kit_system.specs.Rows.{PartOf};
ghost use Rattle.kit_maker.specs.Making.{MakeSized, SystemFits, RowsFit, sent_row, new_inverse, right_byte};

use answers::Refusal;
use design::Design;
use rules::Lengths;

// Fills the left halves of the first n rows of m with the rows of A; `preimages` is the inverse of the parity list.
fn fill_rows(
    m: &mut [u8],
    own: &[u8],
    n: usize,
    columns: &[u32],
    part: &[u32],
    size: usize,
    preimages: &[u16],
)
    requires { RowsFit n size own.now columns.now part.now preimages.now m.old }
    ensures { (length m.new ≡ length m.old)
        × ((e k : ℕ) → e < n → k < n → left n m.new e k
        ≡ sent_row columns.now part.now (entries n own.now) size preimages.now e k) }
{
    let half = (n + 7) / 8;
    // kept as an index loop: a proof cannot tell what a loop over `chunks_exact_mut` has written.
    for e in 0..n {
        let p = kit_system::preimage_of(preimages, size, part.len(), e);
        let a = e * (2 * half);
        let b = a + half;
        kit_system::system_row(&mut m[a..b], own, n, columns, part, size, p, e);
    }
}

// Fills the left halves of the first rows of the working bytes with A, by the powers of x.
fn fill_left(d: Design, own: &[u8], parity: &[u8], columns: &[u32], part: &[u32], work: &mut [u8])
    requires { SystemFits d own.now parity.now work.old × PartOf (column_code (params_of d)) columns.now × PartOf (params_of d) part.now }
    ensures { (length work.new ≡ length work.old)
        × ((i j : ℕ) → i < order_of d → j < order_of d → left (order_of d) work.new i j
        ≡ system_entry (params_of d) (lists_of d own.now parity.now) i j) }
{
    let n = d.order();
    let size = d.size();
    let mut preimages = [0u16; 4096];
    kit_system::fill_preimages(parity, n, &mut preimages[0..n]);
    fill_rows(work, own, n, columns, part, size, &preimages[0..n]);
}

// Fills the left halves of the first rows of the working bytes with A. X and Y are the first r of the last 2 r bits of a word.
fn fill_system(d: Design, own: &[u8], parity: &[u8], work: &mut [u8])
    requires { SystemFits d own.now parity.now work.old }
    ensures { (length work.new ≡ length work.old)
        × ((i j : ℕ) → i < order_of d → j < order_of d → left (order_of d) work.new i j
        ≡ system_entry (params_of d) (lists_of d own.now parity.now) i j) }
{
    let r = d.r();
    let mut columns = [0u32; 64];
    let mut powers = [0u32; 64];
    words_positions::fill_columns(d, &mut columns[0..2 * r]);
    words_positions::fill_table(d, &mut powers[0..2 * r]);
    fill_left(d, own, parity, &columns[0..r], &powers[0..r], work);
}

// Copies a row. A loop, since copy_from_slice wants a `memmove` from the host's C library, which the archive does without.
fn copy_row(row: &[u8], out: &mut [u8])
    requires { length out.old ≡ length row.now }
    ensures { out.new ≡ row.now }
{
    for (k, byte) in out.iter_mut().enumerate() {
        *byte = row[k];
    }
}

// Copies the right halves of the first n rows of m, row after row.
fn copy_right(m: &[u8], n: usize, out: &mut [u8])
    requires { (0 < n) × (n ≤ most-order) × (length m.now ≡ (n + 256) * row_width n) × (length out.old ≡ n * row_bytes n) }
    ensures { out.new ≡ tabulate (n * row_bytes n) (right_byte m.now n) }
{
    let half = (n + 7) / 8;
    // kept as an index loop: as in `fill_rows`.
    for e in 0..n {
        let to = e * half;
        let from = e * (2 * half) + half;
        copy_row(&m[from..from + half], &mut out[to..to + half]);
    }
}

// Rule 14, for lists that are permutations, and the inverse of A.
fn invert_system(
    d: Design,
    own: &[u8],
    parity: &[u8],
    inverse: &mut [u8],
    work: &mut [u8],
) -> Result<(), Refusal>
    requires { SystemFits d own.now parity.now work.old × (length inverse.old ≡ order_of d * row_bytes (order_of d)) }
    ensures { (verdict_of result ≡ singular_rule (params_of d) (lists_of d own.now parity.now))
        × (inverse.new ≡ (made_by (verdict_of result) inverse.old
        (new_inverse (params_of d) (lists_of d own.now parity.now))).inverse) }
{
    let n = d.order();
    fill_system(d, own, parity, work);
    let column = matrix_elimination::invert(work, n);
    if column < n {
        return Err(Refusal::Singular(column as u64));
    }
    copy_right(work, n, inverse);
    Ok(())
}

// Rules 7 and 14, for slices of their lengths, and the inverse of A.
fn make_content(
    d: Design,
    own: &[u8],
    parity: &[u8],
    inverse: &mut [u8],
    work: &mut [u8],
) -> Result<(), Refusal>
    requires { MakeSized d own.now parity.now inverse.old work.old }
    ensures { (verdict_of result
        ≡ (list_rule (params_of d) (lists_of d own.now parity.now)
        then singular_rule (params_of d) (lists_of d own.now parity.now)))
        × (inverse.new ≡ (made_by (verdict_of result) inverse.old
        (new_inverse (params_of d) (lists_of d own.now parity.now))).inverse) }
{
    let n = d.order();
    let mut marks = [0u8; 4096];
    rules::check_lists(own, parity, n, &mut marks[0..n])?;
    invert_system(d, own, parity, inverse, work)
}

// Makes the inverse of a kit: rules 1 to 3, 6, 7 and 14, with the table's number and place of the first that refuses. The lists have two bytes an
// entry and are read, the inverse's buffer has M × r packed rows and is written, and not read; a refusal leaves it as it was. The working bytes are
// make_work of staircase/specs/Maker.antt, and are free before and afterwards. The work is that of the elimination.
pub fn make_inverse_col(
    m: u64,
    t: u64,
    size: u64,
    col: u64,
    own: &[u8],
    parity: &[u8],
    inverse: &mut [u8],
    work: &mut [u8],
) -> Result<(), Refusal>
    ensures { (verdict_of result
        ≡ (make_call m t size col own.now parity.now inverse.old (length work.old)).verdict)
        × (inverse.new
        ≡ (make_call m t size col own.now parity.now inverse.old (length work.old)).inverse) }
{
    let d = Design::new_col(m, t, size, col)?;
    let have = Lengths {
        own: own.len(),
        parity: parity.len(),
        inverse: inverse.len(),
        info: 0,
        red: 0,
        work: work.len(),
    };
    rules::check_lengths(have, rules::make_due(d))?;
    make_content(d, own, parity, inverse, work)
}

// The same where rows and columns have one code.
pub fn make_inverse(
    m: u64,
    t: u64,
    size: u64,
    own: &[u8],
    parity: &[u8],
    inverse: &mut [u8],
    work: &mut [u8],
) -> Result<(), Refusal>
    ensures { (verdict_of result
        ≡ (make_call m t size 0 own.now parity.now inverse.old (length work.old)).verdict)
        × (inverse.new
        ≡ (make_call m t size 0 own.now parity.now inverse.old (length work.old)).inverse) }
{
    make_inverse_col(m, t, size, 0, own, parity, inverse, work)
}
