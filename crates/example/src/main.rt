// Encodes four blocks under kit K, the example of docs/REFERENCE.md, and prints the two groups, or the refusal.
#![tactic(auto)]

ghost use Rattle.io.specs.Counts.{IsPrefixLen};

use answers::Refusal;
use rules_verdict::Judged;

// The lines of the two groups at the start of `line`: each has Y and then P, four bits each. Answers how many bytes they are.
fn group_lines(red: &[u8; 16], line: &mut [u8]) -> usize
    ensures { IsPrefixLen result line.new }
{
    let bits = &red[..];
    let first = text_write::group_line(line, 0, 1, &bits[0..4], &bits[4..8]);
    text_write::group_line(line, first, 2, &bits[8..12], &bits[12..16])
}

// The lines of what the encoder answers.
fn answer_lines(answer: Result<(), Refusal>, red: &[u8; 16], line: &mut [u8]) -> usize
    ensures { IsPrefixLen result line.new }
{
    match answer {
        Ok(()) => group_lines(red, line),
        Err(refusal) => {
            let judged = Judged::from(refusal);
            text_write::refusal_lines(line, 0, judged.rule, judged.place)
        }
    }
}

fn main(rt: HostRuntime) {
    let own: [u8; 8] = [1, 0, 0, 0, 2, 0, 3, 0];
    let parity: [u8; 8] = [3, 0, 0, 0, 1, 0, 2, 0];
    let inverse: [u8; 4] = [5, 10, 11, 2];
    let info: [u8; 4] = [0, 1, 0, 0];
    let mut red = [0u8; 16];
    let mut work = [0u8; 4];
    let mut line = [0u8; 64];
    let answer = encoder::encode(
        4, 1, 1, 4, &own, &parity, &inverse, &info, &mut red, &mut work,
    );
    let n = answer_lines(answer, &red, &mut line);
    let _ = rt.write_all(&line[..n]);
}
