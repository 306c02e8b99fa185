// The order of a design, and the lengths of the slices of an original frame, for a host in C.
//   bauchleton_order            rules 1 to 3, and the order
//   bauchleton_original_sizes   rules 1, 2, 19 and 4, and the lengths
ghost use Rattle.std.specs.Prelude.{◌≡◌, ◌≤◌, OnOk};
ghost use Rattle.staircase.specs.Design.{params, most-blocks};
ghost use Rattle.staircase.specs.Rules.{design_rules};
ghost use Rattle.answers.specs.Answers.{verdict_of};
ghost use Rattle.design.specs.Answers.{DesignIs};
ghost use Rattle.rules_verdict.specs.Number.{number, told};
ghost use Rattle.bauchleton.specs.OriginalSizes.{order_answer, original_sizes_verdict, original_sizes_answer};

use answers::Refusal;
use design::Design;
use rules_verdict::{Judged, tell};

// Judges a design. `answer` has two entries: the place and the order.
#[unsafe(no_mangle)]
pub extern "C" fn bauchleton_order(m: u64, t: u64, size: u64, answer: &mut [u64]) -> u64
    ensures { let v = design_rules m t size 0 in
        (result ≡ number v) × (answer.new ≡ told (order_answer v (params m t size 0)) answer.old) }
{
    match Design::new(m, t, size) {
        Ok(d) => tell(Judged::ACCEPTED, &[d.order() as u64], answer),
        Err(r) => tell(Judged::from(r), &[0], answer),
    }
}

// The design of an original code for frames of `blocks` blocks.
fn original_design(m: u64, t: u64, size: u64, blocks: u64) -> Result<Design, Refusal>
    ensures verdict { verdict_of result ≡ original_sizes_verdict m t size blocks }
    ensures numbers { DesignIs result m t size 0 }
    ensures count { OnOk result (blocks ≤ most-blocks) }
{
    let d = Design::of_original(m, t, size)?;
    design::check_count(blocks)?;
    Ok(d)
}

// Judges the design of an original code and a number of blocks. `answer` has five entries: the place, r, the bits of a word, the bytes of the buffer and the
// decoder's working bytes.
#[unsafe(no_mangle)]
pub extern "C" fn bauchleton_original_sizes(
    m: u64,
    t: u64,
    size: u64,
    blocks: u64,
    answer: &mut [u64],
) -> u64
    ensures { let v = original_sizes_verdict m t size blocks in
        (result ≡ number v) × (answer.new ≡ told (original_sizes_answer v (params m t size 0) blocks) answer.old) }
{
    match original_design(m, t, size, blocks) {
        Ok(d) => {
            let due = rules::original_decoder_due(d, blocks);
            tell(
                Judged::ACCEPTED,
                &[
                    d.r() as u64,
                    d.row_bits() as u64,
                    due.info as u64,
                    due.work as u64,
                ],
                answer,
            )
        }
        Err(r) => tell(Judged::from(r), &[0; 4], answer),
    }
}
