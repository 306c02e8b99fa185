// The kit checker: rules 1 to 3 and 6 to 9 of document 01's table.
//   check_kit       judges a kit
//   check_content   rules 7, 8, 10 and 9 of a kit and the information under it
//
// The crate `rules` has rules 6 to 8 and 10, and `kit_inverse` rule 9, which is most of the work. Rule 10, of the information that the encoder has, comes
// before it; the kit checker has no information.
#![tactic(auto)]

ghost use Rattle.std.specs.Prelude.{◌≡◌, length};
ghost use Rattle.staircase.specs.Rules.{content_rules};
ghost use Rattle.staircase.specs.Calls.{kit_verdict};
ghost use Rattle.design.specs.Sizes.{params_of, lists_of};
ghost use Rattle.answers.specs.Answers.{verdict_of};
ghost use Rattle.kit_inverse.specs.Fits.{KitSized};

use answers::Refusal;
use design::Design;
use rules::Lengths;

// Rules 7, 8, 10 and 9 for a kit of an allowed design, with slices of their lengths, and information of any length.
pub fn check_content(
    d: Design,
    own: &[u8],
    parity: &[u8],
    inverse: &[u8],
    info: &[u8],
    work: &mut [u8],
) -> Result<(), Refusal>
    requires { KitSized d own.now parity.now inverse.now work.old }
    ensures { verdict_of result
        ≡ content_rules (params_of d) (lists_of d own.now parity.now) inverse.now info.now }
{
    let n = d.order();
    let mut marks = [0u8; 4096];
    rules::check_bytes(d, own, parity, inverse, info, &[], &mut marks[0..n])?;
    kit_inverse::check_inverse(d, own, parity, inverse, work)
}

// Judges a kit: rules 1 to 3 and 6 to 9, with the table's number and place of the first that refuses. The lists have two bytes an entry, the
// inverse M × r packed rows, and the working bytes are as many as the inverse's; they alone are written.
pub fn check_kit_col(
    m: u64,
    t: u64,
    size: u64,
    col: u64,
    own: &[u8],
    parity: &[u8],
    inverse: &[u8],
    work: &mut [u8],
) -> Result<(), Refusal>
    ensures { verdict_of result ≡ kit_verdict m t size col own.now parity.now inverse.now (length work.old) }
{
    let d = Design::new_col(m, t, size, col)?;
    let have = Lengths {
        own: own.len(),
        parity: parity.len(),
        inverse: inverse.len(),
        info: 0,
        red: 0,
        work: work.len(),
    };
    rules::check_lengths(have, rules::kit_due(d))?;
    check_content(d, own, parity, inverse, &[], work)
}

// The same where rows and columns have one code.
pub fn check_kit(
    m: u64,
    t: u64,
    size: u64,
    own: &[u8],
    parity: &[u8],
    inverse: &[u8],
    work: &mut [u8],
) -> Result<(), Refusal>
    ensures { verdict_of result ≡ kit_verdict m t size 0 own.now parity.now inverse.now (length work.old) }
{
    check_kit_col(m, t, size, 0, own, parity, inverse, work)
}
