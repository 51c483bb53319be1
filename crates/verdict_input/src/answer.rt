// The answer on a finding, four numbers ("Turned back for the input"; "Turned back for the state").
ghost use Rattle.std.specs.Prelude.{◌≡◌};
ghost use Rattle.meaning.specs.Verdict.{answer};
ghost use Rattle.verdict_input.specs.Answer.{numbers, turned_back, outcome_number};

use crate::outcome::Outcome;

// The result, 0 for accepted; the slice (1 first model, 2 second, 3 formula, 0 none); the place, a byte offset; and the count.
#[repr(C)]
#[derive(Clone, Copy)]
pub struct Answer {
    pub result: u32,
    pub slice: u32,
    pub place: u32,
    pub count: u32,
}

// Turned back for the input.
pub fn refusal(number: u32, slice: u32, place: u32) -> Answer
    ensures { numbers result ≡ turned_back number slice place }
{
    Answer {
        result: number,
        slice: slice,
        place: place,
        count: 0,
    }
}

// Turned back for the state, or accepted.
pub fn outcome(outcome: Outcome, count: u32) -> Answer
    ensures { numbers result ≡ answer (outcome_number outcome) count }
{
    Answer {
        result: u32::from(outcome),
        slice: 0,
        place: 0,
        count: count,
    }
}
