// `makekit`: reads on standard input the first part of a kit text, to the last line of the lists, and prints the whole kit text, or a refusal.
//
// Everything that is decided is in the crate `program_makekit`.
#![tactic(auto)]

fn main(rt: HostRuntime) {
    let mut text = program_io::input_bytes();
    let Ok(n) = program_io::read_text(&rt, &mut text) else {
        return;
    };
    let mut out = program_io::output_bytes();
    let m = program_makekit::makekit_output(&text[..n], &mut out);
    program_io::write_output(&rt, &out[..m]);
}
