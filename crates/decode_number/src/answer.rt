// What a reader answers where it refuses.
ghost use Rattle.std.specs.Prelude.{◌≡◌};
ghost use Rattle.decode_number.specs.Answer.{refusal_number};

// Why a slice is refused: 1 to 8, in document 01's order. No bytes meet NameRange (`NeverNameRange` of `meaning`).
#[derive(Clone, Copy, Debug, PartialEq, Eq)]
pub enum Refusal {
    TooLong,
    Truncated,
    Malformed,
    UnknownKind,
    NameRange,
    OutOfScope,
    TooDeep,
    Trailing,
}

// Why what stands at a position is refused, and where.
#[derive(Clone, Copy, Debug, PartialEq, Eq)]
pub struct Refused {
    pub why: Refusal,
    pub place: usize,
}

// The number that document 01 gives to a refusal.
impl From<Refusal> for u32 {
    ghost from_gives = { λ why number. number ≡ refusal_number why };

    fn from(why: Refusal) -> u32 {
        match why {
            Refusal::TooLong => 1,
            Refusal::Truncated => 2,
            Refusal::Malformed => 3,
            Refusal::UnknownKind => 4,
            Refusal::NameRange => 5,
            Refusal::OutOfScope => 6,
            Refusal::TooDeep => 7,
            Refusal::Trailing => 8,
        }
    }
}
