// The share of one total in another, in lowest terms.
//   Share          two numbers with no common factor
//   lowest_terms   the share a / b; 0 and 1 where b is 0
//
// Both numbers are divided by their greatest common divisor, which Euclid's divisions find: the common divisors of x and y are those of y and x mod y,
// so at most about 90 divisions are made of numbers of 64 bits.
#![tactic(auto)]

ghost use Rattle.std.specs.Prelude.{◌≡◌, ◌<◌};
ghost use Rattle.staircase.specs.Report.{greatest_common, share_of};
ghost use Rattle.tally_share.specs.Answers.{share_in};

// Two numbers with no common factor.
#[derive(Clone, Copy)]
pub struct Share {
    pub top: u64,
    pub bottom: u64,
}

// The greatest common divisor of a and b.
fn greatest_common(a: u64, b: u64) -> u64
    requires { 0 < b }
    ensures { (result ≡ greatest_common a b) × (0 < result) }
{
    let mut x = a;
    let mut y = b;
    while y != 0 {
        let rest = x % y;
        x = y;
        y = rest;
    }
    x
}

// The share a / b in lowest terms; 0 and 1 where b is 0.
pub fn lowest_terms(a: u64, b: u64) -> Share
    ensures { share_in result ≡ share_of a b }
{
    if b == 0 {
        return Share { top: 0, bottom: 1 };
    }
    let g = greatest_common(a, b);
    Share {
        top: a / g,
        bottom: b / g,
    }
}
