// Reading texts for a host in C.
//   bauchleton_scan_kit, bauchleton_read_kit         kit text
//   bauchleton_scan_blocks, bauchleton_read_blocks   block text
//   bauchleton_scan_frame, bauchleton_read_frame     block text followed by group text, which `mend` reads
ghost use Rattle.std.specs.Prelude.{◌≡◌, List, ℕ, ◌*◌};
ghost use Rattle.text_kit.specs.Answers.{kit_scan_verdict, KitDesign};
ghost use Rattle.text.specs.KitReader.{scan_kit, read_kit_call};
ghost use Rattle.text_frame.specs.Answers.{blocks_verdict, CountIs};
ghost use Rattle.text.specs.FrameReader.{block_count, frame_count};
ghost use Rattle.rules_verdict.specs.Number.{number, told};
ghost use Rattle.bauchleton_text.specs.Answers.{kit_answer, blocks_answer, scan_blocks_for, read_blocks_for, scan_frame_for, read_frame_for};

use answers::TextError;
use design::Design;
use rules_verdict::{Judged, tell};

// Tells a kit reader's answer.
fn tell_kit(a: Result<Design, TextError>, answer: &mut [u64]) -> u64
    ensures { (s : List ℕ) → KitDesign a s → (result ≡ number (kit_scan_verdict a))
        × (answer.new ≡ told (kit_answer (kit_scan_verdict a) s) answer.old) }
{
    match a {
        Ok(d) => {
            let numbers = [d.m() as u64, d.t() as u64, d.size() as u64];
            tell(Judged::ACCEPTED, &numbers, answer)
        }
        Err(e) => tell(program::judge_error(11, e), &[0; 3], answer),
    }
}

// Tells the answer of a reader of blocks or of a frame.
fn tell_blocks(a: Result<u64, TextError>, answer: &mut [u64]) -> u64
    ensures { (L : ℕ) → CountIs a L → (result ≡ number (blocks_verdict a))
        × (answer.new ≡ told (blocks_answer (blocks_verdict a) L) answer.old) }
{
    match a {
        Ok(n) => tell(Judged::ACCEPTED, &[n], answer),
        Err(e) => tell(program::judge_error(12, e), &[0], answer),
    }
}

// Judges a kit text. `answer` has four entries: the place, m, t and M.
#[unsafe(no_mangle)]
pub extern "C" fn bauchleton_scan_kit(text: &[u8], answer: &mut [u64]) -> u64
    ensures { let v = scan_kit text.now in
        (result ≡ number v) × (answer.new ≡ told (kit_answer v text.now) answer.old) }
{
    let a = text_kit::scan_kit(text);
    tell_kit(a, answer)
}

// Reads a kit text into both lists and the inverse. `answer` has four entries: the place, m, t and M.
#[unsafe(no_mangle)]
pub extern "C" fn bauchleton_read_kit(
    text: &[u8],
    own: &mut [u8],
    parity: &mut [u8],
    inverse: &mut [u8],
    answer: &mut [u64],
) -> u64
    ensures { let k = read_kit_call text.now own.old parity.old inverse.old in
        (result ≡ number k.verdict) × (own.new ≡ k.self) × (parity.new ≡ k.parity) × (inverse.new ≡ k.inverse)
        × (answer.new ≡ told (kit_answer k.verdict text.now) answer.old) }
{
    let a = text_kit::read_kit(text, own, parity, inverse);
    tell_kit(a, answer)
}

// Judges a block text. `answer` has two entries: the place and the number of blocks.
#[unsafe(no_mangle)]
pub extern "C" fn bauchleton_scan_blocks(
    m: u64,
    t: u64,
    size: u64,
    text: &[u8],
    answer: &mut [u64],
) -> u64
    ensures { let v = scan_blocks_for m t size text.now in
        (result ≡ number v) × (answer.new ≡ told (blocks_answer v (block_count size text.now)) answer.old) }
{
    match Design::new(m, t, size) {
        Err(r) => tell(Judged::from(r), &[0], answer),
        Ok(d) => {
            let a = text_frame::scan_blocks(text, d);
            tell_blocks(a, answer)
        }
    }
}

// Reads a block text into the information. `answer` has two entries: the place and the number of blocks.
#[unsafe(no_mangle)]
pub extern "C" fn bauchleton_read_blocks(
    m: u64,
    t: u64,
    size: u64,
    text: &[u8],
    info: &mut [u8],
    answer: &mut [u64],
) -> u64
    ensures { let b = read_blocks_for m t size text.now info.old in
        (result ≡ number b.verdict) × (info.new ≡ b.info)
        × (answer.new ≡ told (blocks_answer b.verdict (block_count size text.now)) answer.old) }
{
    match Design::new(m, t, size) {
        Err(r) => tell(Judged::from(r), &[0], answer),
        Ok(d) => {
            let a = text_frame::read_blocks(text, d, info);
            tell_blocks(a, answer)
        }
    }
}

// Judges a block text followed by a group text. `answer` has two entries: the place and the number of blocks.
#[unsafe(no_mangle)]
pub extern "C" fn bauchleton_scan_frame(
    m: u64,
    t: u64,
    size: u64,
    text: &[u8],
    answer: &mut [u64],
) -> u64
    ensures { let v = scan_frame_for m t size text.now in
        (result ≡ number v) × (answer.new ≡ told (blocks_answer v (frame_count size (m * t) text.now)) answer.old) }
{
    match Design::new(m, t, size) {
        Err(r) => tell(Judged::from(r), &[0], answer),
        Ok(d) => {
            let a = text_frame::scan_frame(text, d);
            tell_blocks(a, answer)
        }
    }
}

// Reads a block text followed by a group text into information and redundancy. `answer` has two entries: the place and the number of blocks.
#[unsafe(no_mangle)]
pub extern "C" fn bauchleton_read_frame(
    m: u64,
    t: u64,
    size: u64,
    text: &[u8],
    info: &mut [u8],
    red: &mut [u8],
    answer: &mut [u64],
) -> u64
    ensures { let f = read_frame_for m t size text.now info.old red.old in
        (result ≡ number f.verdict) × (info.new ≡ f.info) × (red.new ≡ f.red)
        × (answer.new ≡ told (blocks_answer f.verdict (frame_count size (m * t) text.now)) answer.old) }
{
    match Design::new(m, t, size) {
        Err(r) => tell(Judged::from(r), &[0], answer),
        Ok(d) => {
            let a = text_frame::read_frame(text, d, info, red);
            tell_blocks(a, answer)
        }
    }
}
