// A step formula judged at a state ("Judging and its count"): its body is counted at every state that a step of its label leads to.
ghost use Rattle.std.specs.Prelude.{◌+◌, ◌≤◌, length};
ghost use Rattle.truth_body.specs.Judged.{Less};
ghost use Rattle.truth_judge.specs.Steps.{Stepped, JudgesBody, Counts, Turns, Falls, AllTurns, AllSteps};
ghost use Rattle.buffer.specs.Buffer.{SameLength};
ghost use Rattle.decode_layout.specs.Kind.{formula_number};
ghost use Rattle.truth_body.specs.Reached.{VisitRoom};

use crate::judge;
use crate::turn::Turn;
use decode_layout::formula_kind::FormulaKind;
use index_formula::index;
use message_bytes::run;
use state_record::state::State;
use std::ops::ControlFlow;
use step_label::step::Step;
use step_next::next;
use successor_next::arrive;
use successor_next::arrive::Arrived;
use truth_body::judged::Judged;
use truth_body::memo;
use truth_body::memo::Memo;
use truth_label::head;
use truth_label::head::Head;

// A step formula of a kind, whose fields stand at a position.
#[cycle(judging)]
pub(crate) fn step(
    s: &[u8],
    f: &[u8],
    kind: FormulaKind,
    at: usize,
    depth: usize,
    state: State,
    m: &mut [u8],
    out: &mut [u8],
    left: u32,
) -> Option<Judged>
    requires { VisitRoom s.now out.old state }
    ensures same_length { SameLength m.old m.new }
    ensures same_length_2 { SameLength out.old out.new }
    ensures less { Less (left + 1) result }
    ensures stepped { Stepped s.now f.now (formula_number kind) at depth state m.old out.old left result out.new }
{
    let mut channel = [0u8; run::LENGTH];
    let mut taken = [0u8; run::LENGTH];
    let Some(head) = head::work(
        f,
        kind,
        at,
        state.aliases,
        state.end,
        out,
        &mut channel,
        &mut taken,
    ) else {
        return Some(Judged::at_limit(left));
    };
    let c = head.channel;
    let t = head.taken;
    steps(
        s,
        f,
        head,
        depth,
        state,
        &channel[0..c],
        &taken[0..t],
        m,
        out,
        left,
    )
}

// The body of a step formula, counted at each state that a step of its label leads to.
#[cycle(judging)]
fn steps(
    s: &[u8],
    f: &[u8],
    head: Head,
    depth: usize,
    state: State,
    channel: &[u8],
    taken: &[u8],
    m: &mut [u8],
    out: &mut [u8],
    left: u32,
) -> Option<Judged>
    requires { VisitRoom s.now out.old state }
    ensures same_length { SameLength m.old m.new }
    ensures same_length_2 { SameLength out.old out.new }
    ensures less { Less (left + 1) result }
    ensures all_steps { AllSteps s.now f.now head depth state channel.now taken.now m.old out.old left result out.new }
{
    let body = head.body;
    let label = head.label;
    let stepless = index::stepless(f, body);
    let memo = memo::begin(label, stepless);
    turns(
        s, f, head, depth, state, channel, taken, stepless, memo, m, out, left,
    )
}

// All turns, one for each step. What is known of the body, what a step sends and the channel of a silent step of two threads stay from one
// step to the next.
#[cycle(judging)]
fn turns(
    s: &[u8],
    f: &[u8],
    head: Head,
    depth: usize,
    state: State,
    channel: &[u8],
    taken: &[u8],
    stepless: bool,
    memo: Memo,
    m: &mut [u8],
    out: &mut [u8],
    left: u32,
) -> Option<Judged>
    requires { VisitRoom s.now out.old state }
    ensures same_length { SameLength m.old m.new }
    ensures same_length_2 { SameLength out.old out.new }
    ensures less { Less (left + 1) result }
    ensures all_turns { AllTurns stepless memo s.now f.now head depth state channel.now taken.now m.old out.old left result out.new }
{
    let label = head.label;
    let mut from = next::before(label, state);
    let mut sum = Judged {
        truth: false,
        limited: false,
        left,
    };
    let body = head.body;
    let mut current = memo;
    let mut buffered = [0u8; run::LENGTH];
    let mut message = [0u8; run::LENGTH];
    loop {
        match turn(
            s,
            f,
            body,
            depth,
            state,
            from,
            channel,
            taken,
            stepless,
            current,
            m,
            out,
            &mut buffered,
            &mut message,
            sum,
        ) {
            ControlFlow::Continue(turned) => {
                from = turned.found;
                sum = turned.sum;
                current = turned.memo;
            }
            ControlFlow::Break(total) => {
                return total;
            }
        }
    }
}

// The body of a step formula, judged at the state that the step after one leads to.
#[cycle(judging)]
fn turn(
    s: &[u8],
    f: &[u8],
    body: usize,
    depth: usize,
    state: State,
    from: Step,
    channel: &[u8],
    taken: &[u8],
    stepless: bool,
    memo: Memo,
    m: &mut [u8],
    out: &mut [u8],
    buffered: &mut [u8],
    message: &mut [u8],
    sum: Judged,
) -> ControlFlow<Option<Judged>, Turn>
    requires { VisitRoom s.now out.old state }
    ensures same_length { SameLength m.old m.new }
    ensures same_length_2 { SameLength out.old out.new }
    ensures same_length_3 { SameLength buffered.old buffered.new }
    ensures same_length_4 { SameLength message.old message.new }
    ensures falls { Falls sum.left result }
    ensures turns { Turns stepless memo s.now f.now body depth state from channel.now taken.now m.old out.old buffered.old message.old sum result out.new buffered.new message.new }
{
    match arrive::next(
        s, state, from, channel, taken, stepless, m, out, buffered, message,
    ) {
        Some(Arrived { step, formed }) => count(s, f, body, depth, memo, step, formed, m, out, sum),
        None => ControlFlow::Break(Some(sum)),
    }
}

// The body of a step formula, judged at the state that a step leads to and added to what the steps before it came to.
#[cycle(judging)]
fn count(
    s: &[u8],
    f: &[u8],
    body: usize,
    depth: usize,
    memo: Memo,
    found: Step,
    formed: Option<State>,
    m: &mut [u8],
    out: &mut [u8],
    sum: Judged,
) -> ControlFlow<Option<Judged>, Turn>
    ensures same_length { SameLength m.old m.new }
    ensures same_length_2 { SameLength out.old out.new }
    ensures falls { Falls sum.left result }
    ensures counts { Counts memo s.now f.now body depth found formed m.old out.old sum result out.new }
{
    let Some(judged) = judge_body(s, f, body, depth, memo, formed, m, out, sum.left) else {
        return ControlFlow::Break(None);
    };
    ControlFlow::Continue(Turn {
        found,
        sum: Judged {
            truth: sum.truth | judged.truth,
            limited: sum.limited | judged.limited,
            left: judged.left,
        },
        memo: memo::memoise(
            memo,
            formed,
            judged.truth,
            judged.limited,
            sum.left - judged.left,
        ),
    })
}

// What a body comes to at what was formed, as it is known or by judging it.
#[cycle(judging)]
fn judge_body(
    s: &[u8],
    f: &[u8],
    body: usize,
    depth: usize,
    memo: Memo,
    formed: Option<State>,
    m: &mut [u8],
    out: &mut [u8],
    left: u32,
) -> Option<Judged>
    ensures same_length { SameLength m.old m.new }
    ensures same_length_2 { SameLength out.old out.new }
    ensures less { Less left result }
    ensures judges_body { JudgesBody memo s.now f.now body depth formed m.old out.old left result out.new }
{
    let applied = memo::applicable(memo, formed);
    if let Memo::Each {
        truth,
        limited,
        visits,
    } = applied
    {
        return memo::charge(truth, limited, visits, left);
    }
    judge::judge(s, f, body, depth, formed, m, out, left)
}
