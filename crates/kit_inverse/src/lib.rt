// Rule 9 of document 01's table: A W is the identity. W A then is too (`either_order` of staircase/proofs/Square.antt) and is not made.
//   check_inverse(d, own, parity, inverse, work)   judges the inverse of a kit
//
// The module `products` finds the first wrong entry of the product. Here are made what it is lent: the powers of x that the bits of X and Y carry,
// and a copy of W in planes, which is the one matrix of working bytes.
#![tactic(auto)]

mod products;

ghost use Rattle.std.specs.Prelude.{◌≡◌, ◌*◌};
ghost use Rattle.staircase.specs.Lists.{first_where};
ghost use Rattle.staircase.specs.Design.{column_code};
ghost use Rattle.staircase.specs.System.{system_entry, inverse_entry};
ghost use Rattle.staircase.specs.Rules.{wrong_entry, inverse_rule};
ghost use Rattle.design.specs.Sizes.{params_of, order_of, lists_of};
ghost use Rattle.answers.specs.Answers.{verdict_of};
ghost use Rattle.kit_system.specs.Rows.{PartOf};
ghost use Rattle.kit_inverse.specs.Fits.{KitFits};

use answers::Refusal;
use design::Design;

// The place of the first wrong entry of A W, or n².
fn first_wrong(
    d: Design,
    own: &[u8],
    parity: &[u8],
    inverse: &[u8],
    columns: &[u32],
    part: &[u32],
    work: &mut [u8],
) -> usize
    requires { KitFits d own.now parity.now inverse.now work.old × PartOf (column_code (params_of d)) columns.now × PartOf (params_of d) part.now }
    ensures { result ≡ first_where (order_of d * order_of d)
        (wrong_entry (order_of d) (system_entry (params_of d) (lists_of d own.now parity.now)) (inverse_entry inverse.now (order_of d))) }
{
    let n = d.order();
    matrix::planes_of_rows(inverse, n, work);
    products::first_wrong(own, parity, n, columns, part, d.size(), work)
}

// Rule 9 with the powers of x, of column words and of row words.
fn judge(
    d: Design,
    own: &[u8],
    parity: &[u8],
    inverse: &[u8],
    columns: &[u32],
    part: &[u32],
    work: &mut [u8],
) -> Result<(), Refusal>
    requires { KitFits d own.now parity.now inverse.now work.old × PartOf (column_code (params_of d)) columns.now × PartOf (params_of d) part.now }
    ensures { verdict_of result ≡ inverse_rule (params_of d) (lists_of d own.now parity.now) inverse.now }
{
    let n = d.order();
    let all = n * n;
    let x = first_wrong(d, own, parity, inverse, columns, part, work);
    if x < all {
        return Err(Refusal::Inverse(x as u64));
    }
    Ok(())
}

// Rule 9 for a kit that fits. X and Y are the first r of the last 2 r bits of a word.
pub fn check_inverse(
    d: Design,
    own: &[u8],
    parity: &[u8],
    inverse: &[u8],
    work: &mut [u8],
) -> Result<(), Refusal>
    requires { KitFits d own.now parity.now inverse.now work.old }
    ensures { verdict_of result ≡ inverse_rule (params_of d) (lists_of d own.now parity.now) inverse.now }
{
    let r = d.r();
    let mut columns = [0u32; 64];
    let mut powers = [0u32; 64];
    words_positions::fill_columns(d, &mut columns[0..2 * r]);
    words_positions::fill_table(d, &mut powers[0..2 * r]);
    judge(d, own, parity, inverse, &columns[0..r], &powers[0..r], work)
}
