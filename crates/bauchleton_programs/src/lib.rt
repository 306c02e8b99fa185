// The programs that are installed, each for a `main` that passes the runtime and ends with the exit status that is answered.
//   bauchleton_program_frame, bauchleton_program_mend     bauchleton-frame, bauchleton-mend [-k KIT] [FILE]
//   bauchleton_program_makekit                            bauchleton-makekit [FILE]
//
// Each reads its words and its inputs, prints what its program prints and answers the exit status: 0 where it printed, 1 where it printed a refusal, 2 where the
// words are wrong, an input cannot be read or standard output does not take all, and nothing else. That 1 is answered for refusals alone, and 0 for none,
// is the contract of `print_frame`, `print_mend` and `print_makekit`, for every input. What is read no contract can say.
#![tactic(auto, using(crate::proofs::Status::ends))]

ghost use Rattle.std.specs.Prelude.{◌≡◌, ◌≤◌};
ghost use Rattle.std.specs.Process.{exit_status};
ghost use Rattle.text.specs.ExitStatus.{output_status};
ghost use Rattle.text.specs.FrameThenMend.{frame_verdict};
ghost use Rattle.text.specs.MendPrints.{mend_verdict};
ghost use Rattle.text.specs.MakeKit.{make_kit_verdict};
ghost use Rattle.bauchleton_programs.specs.Exit.{status_of, failed, OrFailed, Exits};

use program_words::Request;
use std::io;
use std::process::ExitCode;
use std::rt::{Env, Files};

// How a program ends.
#[derive(Clone, Copy, Debug, PartialEq, Eq)]
pub enum Exit {
    Printed,
    Refused,
    Failed,
}

// The exit status that a `main` ends with.
impl From<Exit> for ExitCode {
    ghost from_gives = { λ x code. exit_status code ≡ status_of x };

    #[tactic(auto, unfolding(crate::specs::Exit::status_of))]
    fn from(exit: Exit) -> ExitCode {
        match exit {
            Exit::Printed => ExitCode::from(0u8),
            Exit::Refused => ExitCode::from(1u8),
            Exit::Failed => ExitCode::from(2u8),
        }
    }
}

// How a program ends whose output was taken whole, by its first letter.
fn output_status(out: &[u8]) -> Exit
    ensures { status_of result ≡ output_status out.now }
{
    if out.first() == Some(&b'r') {
        return Exit::Refused;
    }
    Exit::Printed
}

// Prints an output and answers the exit status.
fn print_output<R: Print + Files + Eprint>(rt: &R, out: &[u8]) -> Exit
    ensures { OrFailed (output_status out.now) (status_of result) }
{
    if program_io::write_output(rt, out) {
        return output_status(out);
    }
    Exit::Failed
}

// Prints what `frame` prints for these inputs.
fn print_frame<R: Print + Files + Eprint>(rt: &R, kit: &[u8], text: &[u8]) -> Exit
    ensures { Exits (frame_verdict kit.now text.now) (status_of result) }
{
    let mut out = program_io::output_bytes();
    let n = program_frame::frame_output(kit, text, &mut out);
    print_output(rt, &out[..n])
}

// Prints what `mend` prints for these inputs.
fn print_mend<R: Print + Files + Eprint>(rt: &R, kit: &[u8], text: &[u8]) -> Exit
    ensures { Exits (mend_verdict kit.now text.now) (status_of result) }
{
    let mut out = program_io::output_bytes();
    let n = program_mend::mend_output(kit, text, &mut out);
    print_output(rt, &out[..n])
}

// Prints what `makekit` prints for this input.
fn print_makekit<R: Print + Files + Eprint>(rt: &R, text: &[u8]) -> Exit
    ensures { Exits (make_kit_verdict text.now) (status_of result) }
{
    let mut out = program_io::output_bytes();
    let n = program_makekit::makekit_output(text, &mut out);
    print_output(rt, &out[..n])
}

// Reads the text, from standard input or from the file that the word of this number names, and goes on with it.
fn with_text<R: io::Input + Env + Files + Eprint, P: FnOnce(&[u8]) -> Exit>(
    rt: &R,
    word: Option<usize>,
    print: P,
) -> Exit
    requires { P.IsAlwaysCallable print }
    ensures { status_of result ≤ failed }
{
    let mut text = program_io::input_bytes();
    let read = match word {
        Some(number) => program_io::read_named(rt, number, &mut text),
        None => program_io::read_text(rt, &mut text),
    };
    match read {
        Ok(n) => print(&text[..n]),
        Err(_) => Exit::Failed,
    }
}

// Reads the kit, from kit.txt or from the file that the word of this number names, and goes on with it.
fn with_kit<R: Env + Files + Eprint, P: FnOnce(&[u8]) -> Exit>(
    rt: &R,
    word: Option<usize>,
    print: P,
) -> Exit
    requires { P.IsAlwaysCallable print }
    ensures { status_of result ≤ failed }
{
    let mut kit = program_io::input_bytes();
    let read = match word {
        Some(number) => program_io::read_named(rt, number, &mut kit),
        None => program_io::read_kit(rt, &mut kit),
    };
    match read {
        Ok(n) => print(&kit[..n]),
        Err(_) => Exit::Failed,
    }
}

// Prints a text that was asked for.
fn print_text<R: Print + Files + Eprint>(rt: &R, text: &[u8]) -> Exit
    ensures { status_of result ≤ failed }
{
    if program_io::write_output(rt, text) {
        return Exit::Printed;
    }
    Exit::Failed
}

// Reports on standard error how a program is called.
fn report_usage<R: Eprint>(rt: &R, usage: &str) -> Exit
    ensures { status_of result ≤ failed }
{
    let _ = rt.eprint(usage);
    Exit::Failed
}

// The release that these programs are of: the header's BAUCHLETON_VERSION_TEXT.
fn print_version<R: Print + Files + Eprint>(rt: &R) -> Exit
    ensures { status_of result ≤ failed }
{
    print_text(rt, b"Bauchleton 4.2\n")
}

pub fn bauchleton_program_frame<R: io::Input + Env + Files + Print + Eprint>(rt: &R) -> Exit
    ensures { status_of result ≤ failed }
{
    let request = program_words::read_request(rt, true);
    match request {
        Request::Run(kit, text) => with_kit(rt, kit, |kit| {
            with_text(rt, text, |text| print_frame(rt, kit, text))
        }),
        Request::Help => print_text(
            rt,
            b"usage: bauchleton-frame [-k KIT] [FILE]\nEncodes the block text of FILE or standard input under the kit text of KIT or kit.txt, and prints its group text.\n",
        ),
        Request::Version => print_version(rt),
        Request::Wrong => report_usage(
            rt,
            "usage: bauchleton-frame [-k KIT] [FILE] | --help | --version\n",
        ),
    }
}

pub fn bauchleton_program_mend<R: io::Input + Env + Files + Print + Eprint>(rt: &R) -> Exit
    ensures { status_of result ≤ failed }
{
    let request = program_words::read_request(rt, true);
    match request {
        Request::Run(kit, text) => with_kit(rt, kit, |kit| {
            with_text(rt, text, |text| print_mend(rt, kit, text))
        }),
        Request::Help => print_text(
            rt,
            b"usage: bauchleton-mend [-k KIT] [FILE]\nCorrects the frame text of FILE or standard input under the kit text of KIT or kit.txt, and prints it with its counts.\n",
        ),
        Request::Version => print_version(rt),
        Request::Wrong => report_usage(
            rt,
            "usage: bauchleton-mend [-k KIT] [FILE] | --help | --version\n",
        ),
    }
}

pub fn bauchleton_program_makekit<R: io::Input + Env + Files + Print + Eprint>(rt: &R) -> Exit
    ensures { status_of result ≤ failed }
{
    let request = program_words::read_request(rt, false);
    match request {
        Request::Run(_, text) => with_text(rt, text, |text| print_makekit(rt, text)),
        Request::Help => print_text(
            rt,
            b"usage: bauchleton-makekit [FILE]\nMakes the inverse for the lists of FILE or standard input, the first part of a kit text, and prints the whole kit text.\n",
        ),
        Request::Version => print_version(rt),
        Request::Wrong => report_usage(
            rt,
            "usage: bauchleton-makekit [FILE] | --help | --version\n",
        ),
    }
}
