// `frame`: reads kit.txt and, on standard input, block text, and prints group text, or a refusal.
//
// Everything that is decided is in the crate `program_frame`.
#![tactic(auto)]

fn main(rt: HostRuntime) {
    let mut kit = program_io::input_bytes();
    let Ok(k) = program_io::read_kit(&rt, &mut kit) else {
        return;
    };
    let mut text = program_io::input_bytes();
    let Ok(n) = program_io::read_text(&rt, &mut text) else {
        return;
    };
    let mut out = program_io::output_bytes();
    let m = program_frame::frame_output(&kit[..k], &text[..n], &mut out);
    program_io::write_output(&rt, &out[..m]);
}
