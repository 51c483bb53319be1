// What judging comes to ("Turned back for the state").
ghost use Rattle.std.specs.Prelude.{◌≡◌};
ghost use Rattle.verdict_input.specs.Answer.{outcome_number};

// Accepted, which is 0; or why a finding is turned back for the state: 10 to 13, in document 01's order.
#[derive(Clone, Copy, Debug, PartialEq, Eq)]
pub enum Outcome {
    Accepted,
    BudgetSpent,
    LimitMet,
    FalseOfFirst,
    TrueOfBoth,
}

// The number that document 01 gives to an outcome.
impl From<Outcome> for u32 {
    ghost from_gives = { λ outcome number. number ≡ outcome_number outcome };

    fn from(outcome: Outcome) -> u32 {
        match outcome {
            Outcome::Accepted => 0,
            Outcome::BudgetSpent => 10,
            Outcome::LimitMet => 11,
            Outcome::FalseOfFirst => 12,
            Outcome::TrueOfBoth => 13,
        }
    }
}
