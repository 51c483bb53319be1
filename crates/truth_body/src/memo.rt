// What is known of the body of a step formula before it is judged ("Judging and its count"): a body without steps comes to the same wherever a
// step leads that adds no alias, so it is judged at the first such state within its limits, and counted for the others.
ghost use Rattle.std.specs.Prelude.{◌≡◌};
ghost use Rattle.truth_body.specs.Judged.{Less};
ghost use Rattle.truth_body.specs.Memo.{alike_if, beginning, first_of, memoised, Applies, Charges};

use crate::judged::Judged;
use state_record::state::State;
use step_label::step::Label;

// Nothing; only that it comes to the same at all states within their limits that the steps lead to; or what it comes to there: its truth,
// whether a visit meets a limit, and its visits.
#[derive(Clone, Copy)]
pub enum Memo {
    Open,
    Alike,
    Each {
        truth: bool,
        limited: bool,
        visits: u32,
    },
}

// What is known before the first step.
pub fn begin(label: Label, stepless: bool) -> Memo
    ensures { result ≡ beginning label stepless }
{
    match label {
        Label::Output => Memo::Open,
        Label::Input | Label::Silent => alike(stepless),
    }
}

// A body without steps looks at nothing but aliases.
fn alike(stepless: bool) -> Memo
    ensures { result ≡ alike_if stepless }
{
    if stepless {
        return Memo::Alike;
    }
    Memo::Open
}

// What is known at what was formed: nothing if that is over a limit.
pub fn applicable(memo: Memo, formed: Option<State>) -> Memo
    ensures { Applies memo formed result }
{
    match formed {
        Some(_) => memo,
        None => Memo::Open,
    }
}

// What is known, its visits being taken off a budget. There is no judgement without a visit.
pub fn charge(truth: bool, limited: bool, visits: u32, left: u32) -> Option<Judged>
    ensures less { Less left result }
    ensures charges { Charges truth limited visits left result }
{
    if visits == 0 {
        return None;
    }
    let left = left.checked_sub(visits)?;
    Some(Judged {
        truth,
        limited,
        left,
    })
}

// What is known once the body has come to something at what was formed.
pub fn memoise(memo: Memo, formed: Option<State>, truth: bool, limited: bool, visits: u32) -> Memo
    ensures { result ≡ memoised memo formed truth limited visits }
{
    match memo {
        Memo::Alike => first_of(formed, truth, limited, visits),
        Memo::Open | Memo::Each { .. } => memo,
    }
}

// A judgement at a state within its limits is that at each of them.
fn first_of(formed: Option<State>, truth: bool, limited: bool, visits: u32) -> Memo
    ensures { result ≡ first_of formed truth limited visits }
{
    match formed {
        Some(_) => Memo::Each {
            truth,
            limited,
            visits,
        },
        None => Memo::Alike,
    }
}
