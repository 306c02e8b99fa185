// `mend`: reads kit.txt and, on standard input, block text followed by group text, and prints both corrected and three counts, or a refusal.
//
// Everything that is decided is in the crate `program_mend`.
#![tactic(auto)]

fn main(rt: HostRuntime) {
    let mut kit = program_io::input_bytes();
    let Ok(k) = program_io::read_kit(&rt, &mut kit) else {
        return;
    };
    let mut text = program_io::input_bytes();
    let Ok(n) = program_io::read_text(&rt, &mut text) else {
        return;
    };
    let mut out = program_io::output_bytes();
    let m = program_mend::mend_output(&kit[..k], &text[..n], &mut out);
    program_io::write_output(&rt, &out[..m]);
}
