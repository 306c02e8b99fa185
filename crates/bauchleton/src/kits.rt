// Designs and kits for a host in C.
//   bauchleton_design      rules 1 to 3, and the sizes of a design
//   bauchleton_check_kit   the kit checker
//   bauchleton_make_inverse   the maker of a kit's inverse
//   bauchleton_spread_lists   spread lists
//   bauchleton_mixed_lists    mixed lists of a seed
ghost use Rattle.std.specs.Prelude.{◌≡◌, [], ◌∷◌, length};
ghost use Rattle.staircase.specs.Design.{params};
ghost use Rattle.staircase.specs.Rules.{design_rules};
ghost use Rattle.staircase.specs.Maker.{make_call};
ghost use Rattle.staircase.specs.Spread.{spread_call};
ghost use Rattle.staircase.specs.Mixed.{mixed_call};
ghost use Rattle.rules_verdict.specs.Number.{number, place_of, told};
ghost use Rattle.bauchleton.specs.Answers.{design_answer};
ghost use Rattle.bauchleton.specs.Report.{kit_reported, check_report, report_bytes};

use crate::reports::{lent_length, report_check};
use crate::tells::{tell_check, tell_load};
use design::Design;
use rules_verdict::{Judged, tell};

// Judges a design. `answer` has four entries: the place, r, n and k.
#[unsafe(no_mangle)]
pub extern "C" fn bauchleton_design(m: u64, t: u64, size: u64, answer: &mut [u64]) -> u64
    ensures { (result ≡ number (design_rules m t size 0))
        × (answer.new ≡ told (design_answer (design_rules m t size 0) (params m t size 0)) answer.old) }
{
    match Design::new(m, t, size) {
        Ok(d) => tell(
            Judged::ACCEPTED,
            &[d.r() as u64, d.n() as u64, d.k() as u64],
            answer,
        ),
        Err(r) => tell(Judged::from(r), &[0; 3], answer),
    }
}

// Judges a kit, and reports the place.
#[unsafe(no_mangle)]
pub extern "C" fn bauchleton_check_kit(
    m: u64,
    t: u64,
    size: u64,
    own: &[u8],
    parity: &[u8],
    inverse: &[u8],
    work: &mut [u8],
    report: &mut [u8],
) -> u64
    ensures { let v = kit_reported report.old m t size own.now parity.now inverse.now (length work.old) in
        (result ≡ number v) × (report.new ≡ told (report_bytes (check_report v)) report.old) }
{
    let n = lent_length(work.len(), report.len());
    let c = kit::check_kit(m, t, size, own, parity, inverse, &mut work[0..n]);
    report_check(c, report)
}

// Makes the inverse of a kit from its lists. `answer` has one entry: the place.
#[unsafe(no_mangle)]
pub extern "C" fn bauchleton_make_inverse(
    m: u64,
    t: u64,
    size: u64,
    own: &[u8],
    parity: &[u8],
    inverse: &mut [u8],
    work: &mut [u8],
    answer: &mut [u64],
) -> u64
    ensures { let c = make_call m t size 0 own.now parity.now inverse.old (length work.old) in
        (result ≡ number c.verdict) × (inverse.new ≡ c.inverse) × (answer.new ≡ told (place_of c.verdict ∷ []) answer.old) }
{
    let c = kit_maker::make_inverse(m, t, size, own, parity, inverse, work);
    tell_check(c, answer)
}

// Fills both lists with the spread lists of a design. `answer` has one entry: the place.
#[unsafe(no_mangle)]
pub extern "C" fn bauchleton_spread_lists(
    m: u64,
    t: u64,
    size: u64,
    own: &mut [u8],
    parity: &mut [u8],
    answer: &mut [u64],
) -> u64
    ensures { let c = spread_call m t size 0 own.old parity.old in
        (result ≡ number c.verdict) × (own.new ≡ c.self) × (parity.new ≡ c.parity)
        × (answer.new ≡ told (place_of c.verdict ∷ []) answer.old) }
{
    let c = kit_spread::spread_lists(m, t, size, own, parity);
    tell_check(c, answer)
}

// Fills both lists with the mixed lists of a design and a seed. `answer` has two entries: the place and the generator's last state.
#[unsafe(no_mangle)]
pub extern "C" fn bauchleton_mixed_lists(
    m: u64,
    t: u64,
    size: u64,
    seed: u32,
    own: &mut [u8],
    parity: &mut [u8],
    answer: &mut [u64],
) -> u64
    ensures { let c = mixed_call m t size 0 seed own.old parity.old in
        (result ≡ number c.verdict) × (own.new ≡ c.self) × (parity.new ≡ c.parity)
        × (answer.new ≡ told (place_of c.verdict ∷ c.state ∷ []) answer.old) }
{
    let a = kit_spread::mixed_lists(m, t, size, seed, own, parity);
    tell_load(a, answer)
}
