// Kit text: document 01's reader, and a scan that judges a text without lists to fill.
//   scan_kit(text)                              the two lines (rule 11), rules 1 to 3, the rest (rule 11): the design, or the refusal
//   read_kit(text, own, parity, inverse)        the same with rule 6 before the rest; a right text fills the three slices
//
// An answer is the design or a `TextError`: the refusal by one of the rules 1 to 3 and 6, or the place of rule 11. `kit_scan_verdict` of
// specs/Answers.antt gives the table's number and place of each case, and both contracts say that the answer is the verdict of KitReader in the crate
// `text`, for every text and all slices. Places are those of document 01: "length of the longest start that some kit text shares" (KitPromises there:
// `kit_place_lines`, `kit_place_rest`).
//
// The rest is judged whole before a byte is written (the crate `text_kit_scan`). The filling then reads the same lines again, knows that they are
// right, and needs no refusal (the crate `text_kit_fill`). Both go through the text once, so the work grows with the lengths of the text and of the
// slices.
#![tactic(auto)]

ghost use Rattle.std.specs.Prelude.{◌≡◌};
ghost use Rattle.text_kit.specs.Answers.{kit_scan_verdict, KitDesign};
ghost use Rattle.text.specs.KitReader.{scan_kit, read_kit_call};

use answers::TextError;
use design::Design;

// Judges a kit text: the design, or the number and place of the first rule that refuses it. One pass over the text.
pub fn scan_kit(text: &[u8]) -> Result<Design, TextError>
    ensures result_value { kit_scan_verdict result ≡ scan_kit text.now }
    ensures kit_design { KitDesign result text.now }
{
    let (design, at) = text_kit_scan::read_front(text)?;
    text_kit_scan::judge_rest(text, at, design.order())?;
    Ok(design)
}

// Reads a kit text into the lent lists and the lent inverse. A text that is refused leaves all three as they were. Two passes over the text.
pub fn read_kit(
    text: &[u8],
    own: &mut [u8],
    parity: &mut [u8],
    inverse: &mut [u8],
) -> Result<Design, TextError>
    ensures result_value { kit_scan_verdict result ≡ (read_kit_call text.now own.old parity.old inverse.old).verdict }
    ensures kit_design { KitDesign result text.now }
    ensures own_after { own.new ≡ (read_kit_call text.now own.old parity.old inverse.old).self }
    ensures parity_after { parity.new ≡ (read_kit_call text.now own.old parity.old inverse.old).parity }
    ensures inverse_after { inverse.new ≡ (read_kit_call text.now own.old parity.old inverse.old).inverse }
{
    let (d, at) = text_kit_scan::read_front(text)?;
    rules::check_kit_lengths(d, own, parity, inverse)?;
    let n = d.order();
    let (i, j) = text_kit_scan::judge_rest(text, at, n)?;
    text_kit_fill::fill_lists(text, i, n, own, parity);
    text_kit_fill::fill_inverse(text, j, n, inverse);
    Ok(d)
}
