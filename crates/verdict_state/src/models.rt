// Both models judged ("Turned back for the state").
ghost use Rattle.std.specs.Prelude.{◌≡◌, false, ◌≤◌, ◌-◌, length, replicate};
ghost use Rattle.meaning.specs.Verdict.{ranked};
ghost use Rattle.verdict_input.specs.Answer.{numbers};
ghost use Rattle.verdict_state.specs.Models.{JudgesBoth, JudgesBothIndexed};
ghost use Rattle.buffer.specs.Buffer.{SameLength};

use crate::model;
use index_formula::index;
use state_head::head;
use verdict_input::answer;
use verdict_input::answer::Answer;
use verdict_input::outcome::Outcome;

// The count is what was taken of the budget. In their order: some visit met a limit, false of the first model, true of both; or accepted.
fn within(budget: u32, left: u32, limited: bool, first: bool, second: bool) -> Answer
    requires { left ≤ budget }
    ensures { numbers result ≡ ranked false limited first second (budget - left) budget }
{
    let count = budget - left;
    if limited {
        return answer::outcome(Outcome::LimitMet, count);
    }
    if !first {
        return answer::outcome(Outcome::FalseOfFirst, count);
    }
    if second {
        return answer::outcome(Outcome::TrueOfBoth, count);
    }
    answer::outcome(Outcome::Accepted, count)
}

// The formula that stands in the slice f with its index, judged of each model, the second with what the first leaves of the budget.
fn both(first: &[u8], second: &[u8], f: &[u8], out: &mut [u8], budget: u32) -> Answer
    requires { (length first.now ≤ 4096) × (length second.now ≤ 4096) × (65536 ≤ length out.old) }
    ensures same_length { SameLength out.old out.new }
    ensures judges_both_indexed { JudgesBothIndexed first.now second.now f.now budget result }
{
    let mut m = [0u8; head::BOUND];
    let Some(one) = model::judge(first, f, &mut m, out, budget) else {
        return answer::outcome(Outcome::BudgetSpent, budget);
    };
    let Some(other) = model::judge(second, f, &mut m, out, one.left) else {
        return answer::outcome(Outcome::BudgetSpent, budget);
    };
    let limited = one.limited | other.limited;
    within(budget, other.left, limited, one.truth, other.truth)
}

// The same, where the formula is put into a slice with its index.
fn build(
    first: &[u8],
    second: &[u8],
    formula: &[u8],
    f: &mut [u8],
    out: &mut [u8],
    budget: u32,
) -> Answer
    requires first_len_bound { (length first.now ≤ 4096) × (length second.now ≤ 4096) × (65536 ≤ length out.old) }
    requires formula_len_bound { (length formula.now ≤ 4096) × (length f.old ≡ 12288) }
    ensures same_length { SameLength out.old out.new }
    ensures judges_both { JudgesBoth first.now second.now formula.now budget result }
{
    index::build(formula, f);
    both(first, second, f, out, budget)
}

// Both models judged in the work bytes, which are then cleared. The formula's index is built once for both.
pub fn judge(first: &[u8], second: &[u8], formula: &[u8], work: &mut [u8], budget: u32) -> Answer
    requires first_len_bound { (length first.now ≤ 4096) × (length second.now ≤ 4096) × (65536 ≤ length work.old) }
    requires formula_len_bound { length formula.now ≤ 4096 }
    ensures work_after { work.new ≡ replicate (length work.old) 0 }
    ensures judges_both { JudgesBoth first.now second.now formula.now budget result }
{
    let mut indexed: [u8; index::LENGTH] = [0; index::LENGTH];
    let given = build(
        first,
        second,
        formula,
        &mut indexed[0..index::LENGTH],
        work,
        budget,
    );
    work.fill(0);
    given
}
