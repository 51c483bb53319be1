// The verdict on a finding: four numbers, and the work bytes ("Turned back for the input"; "Turned back for the state").
#![tactic(auto)]

ghost use Rattle.gubzsenil.specs.Verdict.{Promise};

use decode_layout::limit;
use verdict_input::answer::Answer;
use verdict_input::input;
use verdict_state::models;

// The verdict on two models and a formula, with a work buffer and a budget of visits. What it promises of the four numbers and of every
// work byte is in specs/Verdict.antt, and what follows from that in specs/Theorems.antt.
pub fn gubzsenil_verdict(
    first: &[u8],
    second: &[u8],
    formula: &[u8],
    work: &mut [u8],
    budget: u32,
) -> Answer
    ensures { Promise first.now second.now formula.now work.old budget result work.new }
{
    match input::read(first, second, formula, work.len()) {
        Ok(()) => models::judge(first, second, formula, &mut work[0..limit::WORK], budget),
        Err(refused) => refused,
    }
}
