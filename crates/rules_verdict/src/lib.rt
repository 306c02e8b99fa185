// Verdicts as numbers, and numbers stored into the slice that a host lends for its answer.
//   Judged                             a verdict's rule and place, from a refusal and from a check's answer
//   tell                               stores a place and what else a call tells
//
// A slice of another length is left as it was.
#![tactic(auto)]

ghost use Rattle.std.specs.Prelude.{◌≡◌, ◌∷◌};
ghost use Rattle.answers.specs.Answers.{refusal_verdict, verdict_of};
ghost use Rattle.rules_verdict.specs.Number.{judged_of, told};

use answers::Refusal;

// The number of the rule that refuses and the refusal's place; 0 and 0 for accepted.
#[derive(Clone, Copy, Debug, PartialEq, Eq)]
pub struct Judged {
    pub rule: u64,
    pub place: u64,
}

impl Judged {
    pub const ACCEPTED: Judged = Judged { rule: 0, place: 0 };
}

impl From<Refusal> for Judged {
    ghost from_gives = { λ r judged. judged ≡ judged_of (refusal_verdict r) };

    #[tactic(auto, unfolding(answers::specs::Answers::refusal_verdict, crate::specs::Number::number, crate::specs::Number::place_of))]
    fn from(r: Refusal) -> Judged {
        match r {
            Refusal::Size(p) => Judged { rule: 1, place: p },
            Refusal::Long(p) => Judged { rule: 2, place: p },
            Refusal::Large(p) => Judged { rule: 3, place: p },
            Refusal::Count(p) => Judged { rule: 4, place: p },
            Refusal::Rounds(p) => Judged { rule: 5, place: p },
            Refusal::Length(p) => Judged { rule: 6, place: p },
            Refusal::List(p) => Judged { rule: 7, place: p },
            Refusal::Spare(p) => Judged { rule: 8, place: p },
            Refusal::Inverse(p) => Judged { rule: 9, place: p },
            Refusal::Bit(p) => Judged { rule: 10, place: p },
            Refusal::Singular(p) => Judged { rule: 14, place: p },
            Refusal::Narrow(p) => Judged { rule: 15, place: p },
            Refusal::Full(p) => Judged { rule: 16, place: p },
            Refusal::Batch(p) => Judged { rule: 17, place: p },
            Refusal::Window(p) => Judged { rule: 18, place: p },
            Refusal::Thin(p) => Judged { rule: 19, place: p },
        }
    }
}

impl From<Result<(), Refusal>> for Judged {
    ghost from_gives = { λ answer judged. judged ≡ judged_of (verdict_of answer) };

    #[tactic(auto, unfolding(answers::specs::Answers::verdict_of, crate::specs::Number::number, crate::specs::Number::place_of))]
    fn from(answer: Result<(), Refusal>) -> Judged {
        match answer {
            Ok(()) => Judged::ACCEPTED,
            Err(r) => Judged::from(r),
        }
    }
}

// Stores a verdict's place, and the numbers that a call tells beside it, into a slice of as many entries, and answers the rule's number.
pub fn tell(judged: Judged, numbers: &[u64], answer: &mut [u64]) -> u64
    ensures { (result ≡ judged.rule) × (answer.new ≡ told (judged.place ∷ numbers.now) answer.old) }
{
    if answer.len() == numbers.len() + 1 {
        answer[0] = judged.place;
        answer[1..].copy_from_slice(numbers);
    }
    judged.rule
}
