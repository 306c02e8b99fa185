// The words after a program's name: what is asked for, and which files.
//   Request                                what is asked for
//   request_of(kit, count, first, third)   by the number of words, and by the first and the third, for a program that takes a kit or none
//   read_request(rt, kit)                  by the words with which the program was started
//
// The second word is the name of a kit or one too many, so that the others decide. The contract of `request_of` is for every list of words; what the words
// are with which a program was started no contract can say.
#![tactic(auto)]

ghost use Rattle.std.specs.Prelude.{◌≡◌, ◌≤◌, length, List, ℕ};
ghost use Rattle.program_words.specs.Words.{is_option, one_word, kit_words, request_of, Shows};

use std::env::FillError;
use std::rt::Env;

// What is asked for: a run with the words of these numbers as names of the kit and of the text, or with kit.txt and with standard input.
#[derive(Clone, Copy, Debug, PartialEq, Eq)]
pub enum Request {
    Run(Option<usize>, Option<usize>),
    Help,
    Version,
    Wrong,
}

// Whether a word begins with a minus sign.
fn is_option(word: &[u8]) -> bool
    ensures { result ≡ is_option word.now }
{
    word.first() == Some(&b'-')
}

// One word alone.
fn one_word(word: &[u8]) -> Request
    ensures { result ≡ one_word word.now }
{
    if word == b"--help".as_slice() {
        return Request::Help;
    }
    if word == b"--version".as_slice() {
        return Request::Version;
    }
    if is_option(word) {
        return Request::Wrong;
    }
    Request::Run(None, Some(1))
}

// Two words or more, of which the first is `-k`.
fn kit_words(count: usize, third: &[u8]) -> Request
    ensures { result ≡ kit_words count third.now }
{
    if count == 2 {
        return Request::Run(Some(2), None);
    }
    if count != 3 {
        return Request::Wrong;
    }
    if is_option(third) {
        return Request::Wrong;
    }
    Request::Run(Some(2), Some(3))
}

// What `count` words ask for, by the first and the third of them.
pub fn request_of(kit: bool, count: usize, first: &[u8], third: &[u8]) -> Request
    ensures { (words : List (List ℕ)) → Shows words count first.now third.now → result ≡ request_of kit words }
{
    if count == 0 {
        return Request::Run(None, None);
    }
    if count == 1 {
        return one_word(first);
    }
    if !kit {
        return Request::Wrong;
    }
    if first == b"-k".as_slice() {
        return kit_words(count, third);
    }
    Request::Wrong
}

// How many words there are after the program's name.
fn word_count<R: Env>(rt: &R) -> usize {
    for number in 1..usize::MAX {
        if let Err(FillError::NotPresent) = rt.arg(number, &mut []) {
            return number - 1;
        }
    }
    usize::MAX
}

// Puts the word of this number at the start of `word`, and answers how many bytes it has. A word that is missing, or longer, is read as an empty one.
fn read_word<R: Env>(rt: &R, number: usize, word: &mut [u8]) -> usize
    ensures { result ≤ length word.new }
{
    rt.arg(number, word).unwrap_or(0)
}

// What the words ask for with which the program was started. A word that is longer than a path can be is read as an empty one: it is no option.
pub fn read_request<R: Env>(rt: &R, kit: bool) -> Request {
    let mut first = [0; 4096];
    let n = read_word(rt, 1, &mut first);
    let mut third = [0; 4096];
    let k = read_word(rt, 3, &mut third);
    request_of(kit, word_count(rt), &first[..n], &third[..k])
}
