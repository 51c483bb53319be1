// The verdict as C programs call it (include/gubzsenil.h): a static library over the library `gubzsenil`, with its promise.
#![tactic(auto)]

ghost use Rattle.gubzsenil.specs.Verdict.{Promise};

use verdict_input::answer::Answer;

// The verdict on two models and a formula, with a work buffer and a budget of visits. What it promises of the four numbers and of every
// work byte is in the specs/Verdict.antt of `gubzsenil`, and what follows from that in its specs/Theorems.antt.
#[unsafe(no_mangle)]
pub extern "C" fn gubzsenil_verdict(
    first: &[u8],
    second: &[u8],
    formula: &[u8],
    work: &mut [u8],
    budget: u32,
) -> Answer
    ensures { Promise first.now second.now formula.now work.old budget result work.new }
{
    gubzsenil::gubzsenil_verdict(first, second, formula, work, budget)
}
