// The answers of the calls: a refusal, and what a call answers that is not refused.
//   Refusal      a rule of the table that refuses, with the place
//   Counts       what decoding a frame has done
//   TextError    why reading a text fails: a byte that its format does not take, or a refusal
//
// A check answers `Result<(), Refusal>`, a word checker `Result<u64, Refusal>` with the number of words outside the code, a decoder
// `Result<Counts, Refusal>`, and so on, so that `?` hands a refusal on. `refusal_verdict`, `verdict_of`, `counted_of`, `corrected_of` and others of
// specs/ give the table's number and place, and the counts, of each case: they are what the contracts of the calls speak of. Every kind of frame has
// the same answers.
#![tactic(auto)]

ghost use Rattle.std.specs.Prelude.{◌≡◌};
ghost use Rattle.answers.specs.declared.TextError.TheVariants.{Refused};

// A refusal: a rule of the table, by its name there, with the place.
#[derive(Clone, Copy, Debug, PartialEq, Eq)]
pub enum Refusal {
    Size(u64),
    Long(u64),
    Large(u64),
    Count(u64),
    Rounds(u64),
    Length(u64),
    List(u64),
    Spare(u64),
    Inverse(u64),
    Bit(u64),
    Singular(u64),
    Narrow(u64),
    Full(u64),
    Batch(u64),
    Window(u64),
    Thin(u64),
}

// What decoding a frame has done: rounds made, bits that differ from those received, words outside the code at the end, stuck words of the last round
// made.
#[derive(Clone, Copy, Debug, PartialEq, Eq)]
pub struct Counts {
    pub rounds: u64,
    pub turned: u64,
    pub outside: u64,
    pub stuck: u64,
}

// Why reading a text fails: the place of the first byte that its format does not take, or the refusal of what it says.
#[derive(Clone, Copy, Debug, PartialEq, Eq)]
pub enum TextError {
    Broken(u64),
    Refused(Refusal),
}

impl From<Refusal> for TextError {
    ghost from_gives = { λ r e. e ≡ Refused r };

    fn from(r: Refusal) -> TextError {
        TextError::Refused(r)
    }
}
