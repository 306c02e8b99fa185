// Original staircase frames for a host in C.
//   bauchleton_original_encode        the encoder
//   bauchleton_original_check_words   the word checker
//   bauchleton_original_decode        the decoder
ghost use Rattle.std.specs.Prelude.{◌≡◌, length};
ghost use Rattle.original.specs.Calls.{original_words_call};
ghost use Rattle.rules_verdict.specs.Number.{number, told};
ghost use Rattle.bauchleton.specs.Answers.{words_answer};
ghost use Rattle.bauchleton.specs.Report.{check_report, report_bytes};
ghost use Rattle.bauchleton.specs.OriginalReport.{original_encode_reported, original_decode_reported, corrected_buffer_answer};

use crate::reports::{lent_length, report_check, report_decoding};
use crate::tells::tell_words;

// Writes the parity of every row of a buffer of blocks, and reports the place.
#[unsafe(no_mangle)]
pub extern "C" fn bauchleton_original_encode(
    m: u64,
    t: u64,
    size: u64,
    blocks: u64,
    buffer: &mut [u8],
    report: &mut [u8],
) -> u64
    ensures { let e = original_encode_reported report.old m t size blocks buffer.old in
        (result ≡ number e.verdict) × (buffer.new ≡ e.buffer)
        × (report.new ≡ told (report_bytes (check_report e.verdict)) report.old) }
{
    let n = lent_length(buffer.len(), report.len());
    let c = original_encoder::encode(m, t, size, blocks, &mut buffer[0..n]);
    report_check(c, report)
}

// Counts the rows of a buffer of blocks that are outside the code. `answer` has two entries: the place and the count.
#[unsafe(no_mangle)]
pub extern "C" fn bauchleton_original_check_words(
    m: u64,
    t: u64,
    size: u64,
    blocks: u64,
    buffer: &[u8],
    answer: &mut [u64],
) -> u64
    ensures { let w = original_words_call m t size 0 blocks buffer.now in
        (result ≡ number w.verdict) × (answer.new ≡ told (words_answer w) answer.old) }
{
    let a = original_rows::check_words(m, t, size, blocks, buffer);
    tell_words(a, answer)
}

// Corrects a buffer of blocks in place, and reports the place, rounds made, bits turned, rows outside the code at the end, stuck rows of the last round made.
#[unsafe(no_mangle)]
pub extern "C" fn bauchleton_original_decode(
    m: u64,
    t: u64,
    size: u64,
    blocks: u64,
    rounds: u64,
    buffer: &mut [u8],
    work: &mut [u8],
    report: &mut [u8],
) -> u64
    ensures { let d = original_decode_reported report.old m t size blocks rounds buffer.old (length work.old) in
        (result ≡ number d.verdict) × (buffer.new ≡ d.buffer)
        × (report.new ≡ told (report_bytes (corrected_buffer_answer d)) report.old) }
{
    let n = lent_length(work.len(), report.len());
    let a = original_decoder::decode(m, t, size, blocks, rounds, buffer, &mut work[0..n]);
    report_decoding(a, report)
}
