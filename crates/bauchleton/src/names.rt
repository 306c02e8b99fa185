// The version of the library, and the names of the rules, for a host in C.
//   bauchleton_version     that of the header which it was built with
//   bauchleton_rule_name   the name of a rule as bytes
ghost use Rattle.std.specs.Prelude.{◌≡◌, length};
ghost use Rattle.bauchleton.specs.Answers.{pasted};
ghost use Rattle.bauchleton.specs.RuleNames.{version, rule_name};

use crate::calls::paste;

const VERSION: u64 = 402;

// The version: 100 times the first number and the second.
#[unsafe(no_mangle)]
pub extern "C" fn bauchleton_version() -> u64
    ensures { result ≡ version }
{
    VERSION
}

// Copies a name to the start of `out`, where it fits, and answers its length.
fn put_name(name: &[u8], out: &mut [u8]) -> usize
    ensures { (result ≡ length name.now) × (out.new ≡ pasted name.now out.old) }
{
    paste(name, out);
    name.len()
}

// Copies the name of a rule to the start of `out`, `accepted` for 0 and nothing for a number that no rule has, and answers its length. An `out` that is too
// short is left as it was, and the length is answered all the same.
#[unsafe(no_mangle)]
pub extern "C" fn bauchleton_rule_name(rule: u64, out: &mut [u8]) -> usize
    ensures { (result ≡ length (rule_name rule)) × (out.new ≡ pasted (rule_name rule) out.old) }
{
    match rule {
        0 => put_name(b"accepted", out),
        1 => put_name(b"size", out),
        2 => put_name(b"long", out),
        3 => put_name(b"large", out),
        4 => put_name(b"count", out),
        5 => put_name(b"rounds", out),
        6 => put_name(b"length", out),
        7 => put_name(b"list", out),
        8 => put_name(b"spare", out),
        9 => put_name(b"inverse", out),
        10 => put_name(b"bit", out),
        11 => put_name(b"kit text", out),
        12 => put_name(b"block text", out),
        13 => put_name(b"input", out),
        14 => put_name(b"singular", out),
        15 => put_name(b"narrow", out),
        16 => put_name(b"full", out),
        17 => put_name(b"batch", out),
        18 => put_name(b"window", out),
        19 => put_name(b"thin", out),
        _ => 0,
    }
}
