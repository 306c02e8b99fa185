// Frames for a host in C.
//   bauchleton_encode        the encoder
//   bauchleton_encode_batch  the encoder of several frames
//   bauchleton_check_words   the word checker
//   bauchleton_decode        the decoder
//   bauchleton_decode_window the decoder with a window that slides over the frame
//   bauchleton_loopback      the bench's self test
//   bauchleton_show          showing a block or a group
ghost use Rattle.std.specs.Prelude.{◌≡◌, length};
ghost use Rattle.staircase.specs.Frame.{frame_of};
ghost use Rattle.staircase.specs.Calls.{words_call, show_call};
ghost use Rattle.staircase.specs.Tally.{decode_with};
ghost use Rattle.loopback.specs.Link.{loopback_call};
ghost use Rattle.show.specs.Answers.{part_of};
ghost use Rattle.rules_verdict.specs.Number.{number, told};
ghost use Rattle.bauchleton.specs.Answers.{words_answer, corrected_answer, show_answer, shown_part, pasted};
ghost use Rattle.bauchleton.specs.Report.{encode_reported, batch_reported, decode_reported, window_reported, check_report, report_bytes};

use crate::reports::{lent_length, report_check, report_decoding};
use crate::tells::{tell_decoding, tell_words};
use encoder_batch::encode_batch;
use rules_verdict::{Judged, tell};
use show::Part;

// Block `which` where `kind` is 0, else group `which`.
fn part_of(kind: u64, which: u64) -> Part
    ensures { part_of result ≡ shown_part kind which }
{
    if kind == 0 {
        return Part::Block(which);
    }
    Part::Group(which)
}

// Copies bits, one a byte. A loop, since copy_from_slice wants a `memmove` from the host's C library, which the archive does without.
fn copy(bits: &[u8], out: &mut [u8])
    requires { length out.old ≡ length bits.now }
    ensures { out.new ≡ bits.now }
{
    for (k, bit) in out.iter_mut().enumerate() {
        *bit = bits[k];
    }
}

// Copies a stretch to the start of `out`, where it fits.
pub fn paste(stretch: &[u8], out: &mut [u8])
    ensures { out.new ≡ pasted stretch.now out.old }
{
    if stretch.len() <= out.len() {
        copy(stretch, &mut out[..stretch.len()]);
    }
}

// Makes the redundancy of a frame, and reports the place.
#[unsafe(no_mangle)]
pub extern "C" fn bauchleton_encode(
    m: u64,
    t: u64,
    size: u64,
    blocks: u64,
    own: &[u8],
    parity: &[u8],
    inverse: &[u8],
    info: &[u8],
    red: &mut [u8],
    work: &mut [u8],
    report: &mut [u8],
) -> u64
    ensures { let e = encode_reported report.old m t size blocks own.now parity.now inverse.now info.now
        red.old (length work.old) in
        (result ≡ number e.verdict) × (red.new ≡ e.red) × (report.new ≡ told (report_bytes (check_report e.verdict)) report.old) }
{
    let n = lent_length(work.len(), report.len());
    let c = encoder::encode(
        m,
        t,
        size,
        blocks,
        own,
        parity,
        inverse,
        info,
        red,
        &mut work[0..n],
    );
    report_check(c, report)
}

// Makes the redundancy of `frames` frames of `blocks` blocks each, joined, and reports the place.
#[unsafe(no_mangle)]
pub extern "C" fn bauchleton_encode_batch(
    m: u64,
    t: u64,
    size: u64,
    blocks: u64,
    frames: u64,
    own: &[u8],
    parity: &[u8],
    inverse: &[u8],
    info: &[u8],
    red: &mut [u8],
    work: &mut [u8],
    report: &mut [u8],
) -> u64
    ensures { let e = batch_reported report.old m t size blocks frames own.now parity.now inverse.now info.now
        red.old (length work.old) in
        (result ≡ number e.verdict) × (red.new ≡ e.red) × (report.new ≡ told (report_bytes (check_report e.verdict)) report.old) }
{
    let n = lent_length(work.len(), report.len());
    let c = encode_batch(
        m,
        t,
        size,
        blocks,
        frames,
        own,
        parity,
        inverse,
        info,
        red,
        &mut work[0..n],
    );
    report_check(c, report)
}

// Counts the words of a frame that are outside the code. `answer` has two entries: the place and the count.
#[unsafe(no_mangle)]
pub extern "C" fn bauchleton_check_words(
    m: u64,
    t: u64,
    size: u64,
    blocks: u64,
    own: &[u8],
    parity: &[u8],
    info: &[u8],
    red: &[u8],
    work: &mut [u8],
    answer: &mut [u64],
) -> u64
    ensures { let w = words_call m t size 0 blocks own.now parity.now info.now red.now
        (length work.old) in
        (result ≡ number w.verdict) × (answer.new ≡ told (words_answer w) answer.old) }
{
    let a = words::check_words(m, t, size, blocks, own, parity, info, red, work);
    tell_words(a, answer)
}

// Corrects a frame in place, and reports the place, rounds made, bits turned, words outside the code at the end, stuck words of the last round made.
#[unsafe(no_mangle)]
pub extern "C" fn bauchleton_decode(
    m: u64,
    t: u64,
    size: u64,
    blocks: u64,
    rounds: u64,
    own: &[u8],
    parity: &[u8],
    info: &mut [u8],
    red: &mut [u8],
    work: &mut [u8],
    report: &mut [u8],
) -> u64
    ensures { let d = decode_reported report.old (decode_with m t size 0 blocks rounds own.now parity.now info.old red.old
        (length work.old)) in
        (result ≡ number d.verdict) × (frame_of info.new red.new ≡ d.frame)
        × (report.new ≡ told (report_bytes (corrected_answer d)) report.old) }
{
    let n = lent_length(work.len(), report.len());
    let a = decoder::decode(
        m,
        t,
        size,
        blocks,
        rounds,
        own,
        parity,
        info,
        red,
        &mut work[0..n],
    );
    report_decoding(a, report)
}

// Corrects a frame in place, with a window of `window` groups that slides over it, and reports as the decoder does.
#[unsafe(no_mangle)]
pub extern "C" fn bauchleton_decode_window(
    m: u64,
    t: u64,
    size: u64,
    blocks: u64,
    rounds: u64,
    window: u64,
    own: &[u8],
    parity: &[u8],
    info: &mut [u8],
    red: &mut [u8],
    work: &mut [u8],
    report: &mut [u8],
) -> u64
    ensures { let d = window_reported report.old window (decode_with m t size 0 blocks rounds own.now parity.now info.old
        red.old (length work.old)) in
        (result ≡ number d.verdict) × (frame_of info.new red.new ≡ d.frame)
        × (report.new ≡ told (report_bytes (corrected_answer d)) report.old) }
{
    let n = lent_length(work.len(), report.len());
    let a = decoder::decode_window(
        m,
        t,
        size,
        blocks,
        rounds,
        window,
        own,
        parity,
        info,
        red,
        &mut work[0..n],
    );
    report_decoding(a, report)
}

// Encodes, turns the bits that the patterns name, and decodes. `answer` has five entries, the numbers that the decoder reports.
#[unsafe(no_mangle)]
pub extern "C" fn bauchleton_loopback(
    m: u64,
    t: u64,
    size: u64,
    blocks: u64,
    rounds: u64,
    own: &[u8],
    parity: &[u8],
    inverse: &[u8],
    info_errors: &[u8],
    red_errors: &[u8],
    info: &mut [u8],
    red: &mut [u8],
    work: &mut [u8],
    answer: &mut [u64],
) -> u64
    ensures { let l = loopback_call m t size 0 blocks rounds own.now parity.now inverse.now info_errors.now
        red_errors.now info.old red.old (length work.old) in
        (result ≡ number l.verdict) × (frame_of info.new red.new ≡ l.frame)
        × (answer.new ≡ told (corrected_answer l) answer.old) }
{
    let a = loopback::loopback(
        m,
        t,
        size,
        blocks,
        rounds,
        own,
        parity,
        inverse,
        info_errors,
        red_errors,
        info,
        red,
        work,
    );
    tell_decoding(a, answer)
}

// Copies block `which`, where `kind` is 0, or else group `which` of a frame to the start of `out`, where it fits. `answer` has two entries: the
// place, and the length of the stretch.
#[unsafe(no_mangle)]
pub extern "C" fn bauchleton_show<'a>(
    m: u64,
    t: u64,
    size: u64,
    blocks: u64,
    kind: u64,
    which: u64,
    info: &'a [u8],
    red: &'a [u8],
    out: &mut [u8],
    answer: &mut [u64],
) -> u64
    ensures { let s = show_call m t size 0 blocks (shown_part kind which) info.now red.now in
        (result ≡ number s.verdict) × (out.new ≡ pasted s.bits out.old)
        × (answer.new ≡ told (show_answer s) answer.old) }
{
    let part = part_of(kind, which);
    let c = show::check_show(m, t, size, blocks, part, info, red);
    let stretch = show::show(m, t, size, blocks, part, info, red);
    paste(stretch, out);
    tell(Judged::from(c), &[stretch.len() as u64], answer)
}
