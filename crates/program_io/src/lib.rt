// What the programs read and write: kit.txt, standard input, files that their words name, standard output.
//   input_bytes, output_bytes   arrays for an input and for what is printed
//   read_kit                    kit.txt in the folder in which the program runs
//   read_text                   standard input
//   read_named                  the file that a word after the program's name names
//   Unread                      what these three answer where they could not
//   write_output                standard output
//
// An input is read to its end, or up to one byte more than rule 13 lets through and no further. An input that cannot be opened or read, and an output
// that cannot be written whole, are told on standard error, each with its name and the system's reason: the start of a text may be a text, so an input
// that breaks off must not pass for a shorter one. A call that a signal interrupts before it moves a byte has not failed, and is made again. What is
// read and written no contract can say.
#![tactic(auto)]

ghost use Rattle.std.specs.Prelude.{◌≡◌, length, IfOk, IfErr};
ghost use Rattle.std.specs.Result.{result_ok};
ghost use Rattle.std.specs.Io.{ReadsAtMost, WritesAtMost};
ghost use Rattle.io.specs.Counts.{IsPrefixLen};

use std::env::FillError;
use std::fmt::InlineText;
use std::fs::{File, OpenFile};
use std::io::{ErrorKind, Read};
use std::rt::{Env, Files};
use std::{fs, io, str};

// An input that could not be opened, or read to its end, which has been told: how many bytes of it were read.
#[derive(Clone, Copy, Debug, PartialEq, Eq)]
pub struct Unread {
    pub count: usize,
}

// Arrays for an input and for what is printed. Only their lengths are told.
pub fn input_bytes() -> [u8; 32769]
    ensures { 32769 ≡ length result }
{
    [0; 32769]
}

pub fn output_bytes() -> [u8; 262144]
    ensures { 262144 ≡ length result }
{
    [0; 262144]
}

// The most calls in a row that a signal may interrupt. If the last is interrupted too, that is told as a failure.
const MOST_TRIES: usize = 1000;

// The system's numbers for what is wrong with a name, and for no failure.
const NO_SUCH_WORD: i32 = 22;

const TOO_LONG: i32 = 36;

const NOT_TEXT: i32 = 84;

const NO_FAILURE: i32 = 0;

// Tells on standard error what failed and why. The library adds the error's number to the system's reason, which is left out.
fn tell<R: Eprint>(rt: &R, name: &str, error: io::Error) {
    let told = InlineText::<256>::of(error);
    let text = told.as_str();
    let reason = match text.split_once(" (os error ") {
        Some((reason, _)) => reason,
        None => text,
    };
    let _ = rt.eprintln(format_args!("{name}: {reason}"));
}

// Whether a signal interrupted the read or the write that answered `moved`, before it moved a byte.
fn interrupted(moved: &io::Result<usize>) -> bool {
    match moved {
        Ok(_) => false,
        Err(e) => e.kind() == ErrorKind::Interrupted,
    }
}

// What one read into the start of `bytes` answers; it is made again where a signal interrupts it.
fn read_once<F: Read>(from: &mut F, bytes: &mut [u8]) -> io::Result<usize>
    ensures { ReadsAtMost result bytes.new }
{
    for _ in 1..MOST_TRIES {
        let got = from.read(bytes);
        if !interrupted(&got) {
            return got;
        }
    }
    from.read(bytes)
}

// Reads an input into the start of `bytes`, to its end or until they are full, and answers how many bytes were read and whether a read failed.
fn read_input<F: Read>(from: &mut F, bytes: &mut [u8]) -> (usize, io::Result<()>)
    ensures { IsPrefixLen result.0 bytes.new }
{
    let mut count = 0;
    while count < bytes.len() {
        let more = match read_once(from, &mut bytes[count..]) {
            Ok(more) => more,
            Err(e) => return (count, Err(e)),
        };
        if more == 0 {
            break;
        }
        count += more;
    }
    (count, Ok(()))
}

// Reads the file at `path`, likewise.
fn read_file<R: Files>(rt: &R, path: &str, bytes: &mut [u8]) -> (usize, io::Result<()>)
    ensures { IsPrefixLen result.0 bytes.new }
{
    match fs::open(rt, path) {
        Ok(mut file) => read_input(&mut file, bytes),
        Err(e) => (0, Err(e)),
    }
}

// What was answered; a failure is told on standard error, with the name.
fn or_tell<R: Eprint, T: Drop>(rt: &R, name: &str, answer: io::Result<T>) -> Option<T>
    ensures { result ≡ result_ok answer }
{
    match answer {
        Ok(value) => Some(value),
        Err(e) => {
            tell(rt, name, e);
            None
        }
    }
}

// The number of bytes of an input that was read to its end; a failure is told on standard error, with the name.
fn all_read<R: Eprint>(
    rt: &R,
    name: &str,
    count: usize,
    ended: io::Result<()>,
) -> Result<usize, Unread>
    ensures { IfOk result (λ n. n ≡ count) × IfErr result (λ e. e.count ≡ count) }
{
    match or_tell(rt, name, ended) {
        Some(()) => Ok(count),
        None => Err(Unread { count }),
    }
}

// Reads kit.txt into the start of `bytes`, and answers how many bytes were read, in either case.
pub fn read_kit<R: Files + Eprint>(rt: &R, bytes: &mut [u8]) -> Result<usize, Unread>
    ensures { IfOk result (λ n. IsPrefixLen n bytes.new) × IfErr result (λ e. IsPrefixLen e.count bytes.new) }
{
    let path = "kit.txt";
    let (count, ended) = read_file(rt, path, bytes);
    all_read(rt, path, count, ended)
}

// The text of the word of number `word`, at the start of `name`, or the number of what is wrong with it.
fn name_of<'a, R: Env>(rt: &R, word: usize, name: &'a mut [u8]) -> Result<&'a str, i32> {
    match rt.arg(word, name) {
        Ok(n) => str::from_utf8(&name[..n]).map_err(|_| NOT_TEXT),
        Err(FillError::TooLong) => Err(TOO_LONG),
        Err(FillError::NotPresent) => Err(NO_SUCH_WORD),
    }
}

// Reads the file that the word of number `word` names, the first after the program's name being 1, likewise. A word that is missing, or longer than a
// path can be, is told as a failure: what is there of it must not pass for a shorter name, or for an empty one. So is one that is no text: the library
// opens no file of such a name.
pub fn read_named<R: Env + Files + Eprint>(
    rt: &R,
    word: usize,
    bytes: &mut [u8],
) -> Result<usize, Unread>
    ensures { IfOk result (λ n. IsPrefixLen n bytes.new) × IfErr result (λ e. IsPrefixLen e.count bytes.new) }
{
    let mut name = [0; 4096];
    match name_of(rt, word, &mut name) {
        Ok(path) => {
            let (count, ended) = read_file(rt, path, bytes);
            all_read(rt, path, count, ended)
        }
        Err(number) => {
            tell(rt, "name of a file", io::Error::from_raw_os_error(number));
            Err(Unread { count: 0 })
        }
    }
}

// Reads standard input, likewise.
pub fn read_text<R: io::Input + Eprint>(rt: &R, bytes: &mut [u8]) -> Result<usize, Unread>
    ensures { IfOk result (λ n. IsPrefixLen n bytes.new) × IfErr result (λ e. IsPrefixLen e.count bytes.new) }
{
    let mut from = rt.reader();
    let (count, ended) = read_input(&mut from, bytes);
    all_read(rt, "standard input", count, ended)
}

// What one write of `bytes` to standard output answers; it is made again where a signal interrupts it.
fn write_once<R: Print>(rt: &R, bytes: &[u8]) -> io::Result<usize>
    ensures { WritesAtMost result bytes.now }
{
    for _ in 1..MOST_TRIES {
        let put = rt.write_some(bytes);
        if !interrupted(&put) {
            return put;
        }
    }
    rt.write_some(bytes)
}

// Writes `bytes` to standard output whole. A write that takes nothing has failed.
fn written<R: Print>(rt: &R, bytes: &[u8]) -> io::Result<()> {
    let mut done = 0;
    while done < bytes.len() {
        let taken = write_once(rt, &bytes[done..])?;
        if taken == 0 {
            return Err(io::Error::from_raw_os_error(NO_FAILURE));
        }
        done += taken;
    }
    Ok(())
}

// Standard output once more, where it is a file: a pipe or a terminal has nothing to store.
fn output_file<R: Files>(rt: &R) -> Option<R::File> {
    let path = "/dev/stdout";
    let found = fs::metadata(rt, path).ok()?;
    if !found.is_file() {
        return None;
    }
    File::options().write(true).open(rt, path).ok()
}

// Has what was written stored, where standard output is a file that can be asked for it.
fn stored<R: Files>(rt: &R) -> io::Result<()> {
    let Some(file) = output_file(rt) else {
        return Ok(());
    };
    match file.sync_all() {
        Err(e) if e.kind() == ErrorKind::InvalidInput => Ok(()),
        answer => answer,
    }
}

// Writes `bytes` to standard output and has a file store them: some file systems tell only then that what they took is lost. A failure is told. Answers
// whether all was taken.
pub fn write_output<R: Print + Files + Eprint>(rt: &R, bytes: &[u8]) -> bool {
    let answer = written(rt, bytes).and_then(|_| stored(rt));
    or_tell(rt, "standard output", answer).is_some()
}
