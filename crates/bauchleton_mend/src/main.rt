// `bauchleton-mend [-k KIT] [FILE]`: corrects the frame text of FILE or standard input under the kit text of KIT or kit.txt, and prints it with its counts, or a refusal.
//
// Everything that is decided, the exit status too, is in the crate `bauchleton_programs`.
#![tactic(auto)]

use std::process::ExitCode;

fn main(rt: HostRuntime) -> ExitCode {
    ExitCode::from(bauchleton_programs::bauchleton_program_mend(&rt))
}
