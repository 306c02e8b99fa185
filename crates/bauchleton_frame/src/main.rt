// `bauchleton-frame [-k KIT] [FILE]`: encodes the block text of FILE or standard input under the kit text of KIT or kit.txt, and prints its group text, or a refusal.
//
// Everything that is decided, the exit status too, is in the crate `bauchleton_programs`.
#![tactic(auto)]

use std::process::ExitCode;

fn main(rt: HostRuntime) -> ExitCode {
    ExitCode::from(bauchleton_programs::bauchleton_program_frame(&rt))
}
