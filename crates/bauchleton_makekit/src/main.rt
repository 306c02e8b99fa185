// `bauchleton-makekit [FILE]`: makes the inverse for the lists of FILE or standard input, and prints the whole kit text, or a refusal.
//
// Everything that is decided, the exit status too, is in the crate `bauchleton_programs`.
#![tactic(auto)]

use std::process::ExitCode;

fn main(rt: HostRuntime) -> ExitCode {
    ExitCode::from(bauchleton_programs::bauchleton_program_makekit(&rt))
}
