// What judging comes to ("Judging and its count").
ghost use Rattle.std.specs.Prelude.{◌≡◌};
ghost use Rattle.truth_body.specs.Judged.{at_limit};

// Whether the formula is true, whether a visit met a limit, and what is left of the budget; or the same of what the steps of a formula have
// come to so far, or of the first side of `and`. There is none where the visits are more than the budget, or where no formula stands.
#[derive(Clone, Copy)]
pub struct Judged {
    pub truth: bool,
    pub limited: bool,
    pub left: u32,
}

impl Judged {
    // A visit that met a limit, and went no further.
    pub fn at_limit(left: u32) -> Judged
        ensures { result ≡ at_limit left }
    {
        Judged {
            truth: false,
            limited: true,
            left,
        }
    }
}
