// A formula judged at a state ("Judging and its count"): it calls itself on the body or the sides, and formula nodes left on the path fall.
ghost use Rattle.std.specs.Prelude.{◌+◌, ◌≤◌, ◌<◌, length};
ghost use Rattle.truth_body.specs.Judged.{Less};
ghost use Rattle.truth_judge.specs.Visit.{Judges, Visits, Equates, Negates, Conjoins, Seconds};
ghost use Rattle.buffer.specs.Buffer.{SameLength};
ghost use Rattle.truth_body.specs.Reached.{VisitRoom};

use crate::stepping;
use decode_layout::formula_kind::FormulaKind;
use decode_layout::limit;
use index_formula::index;
use index_process::index::LENGTH;
use message_binding::decide;
use state_record::state::State;
use truth_body::judged::Judged;

// The last position where a state may end in the work bytes: 17 states, each of at most 2,976 bytes.
const LATEST: usize = 50592;

// The formula at a position, judged at a state that was formed, or was found to be over a limit.
#[cycle(judging)]
pub fn judge(
    s: &[u8],
    f: &[u8],
    at: usize,
    depth: usize,
    formed: Option<State>,
    m: &mut [u8],
    out: &mut [u8],
    left: u32,
) -> Option<Judged>
    ensures same_length { SameLength m.old m.new }
    ensures same_length_2 { SameLength out.old out.new }
    ensures less { Less left result }
    ensures judges { Judges s.now f.now at depth formed m.old out.old left result out.new }
{
    let left = left.checked_sub(1)?;
    let Some(state) = formed else {
        return Some(Judged::at_limit(left));
    };
    visit(s, f, at, depth, state, m, out, left)
}

// A visit to a state within its limits. Where no formula stands, or the slices are none that judging is given, nothing is judged.
#[cycle(judging)]
fn visit(
    s: &[u8],
    f: &[u8],
    at: usize,
    depth: usize,
    state: State,
    m: &mut [u8],
    out: &mut [u8],
    left: u32,
) -> Option<Judged>
    ensures same_length { SameLength m.old m.new }
    ensures same_length_2 { SameLength out.old out.new }
    ensures less { Less (left + 1) result }
    ensures visits { Visits s.now f.now at depth state m.old out.old left result out.new }
{
    if depth == 0 {
        return None;
    }
    if f.len() <= at {
        return None;
    }
    if LENGTH < s.len() {
        return None;
    }
    if out.len() < limit::WORK {
        return None;
    }
    if LATEST < state.end {
        return None;
    }
    if state.end < state.aliases {
        return None;
    }
    node(s, f, at, depth - 1, state, m, out, left)
}

// The formula by its kind.
#[cycle(judging)]
fn node(
    s: &[u8],
    f: &[u8],
    at: usize,
    depth: usize,
    state: State,
    m: &mut [u8],
    out: &mut [u8],
    left: u32,
) -> Option<Judged>
    requires visit_room { VisitRoom s.now out.old state }
    requires at_in_bounds { at < length f.now }
    ensures same_length { SameLength m.old m.new }
    ensures same_length_2 { SameLength out.old out.new }
    ensures less { Less (left + 1) result }
    ensures visits { Visits s.now f.now at (depth + 1) state m.old out.old left result out.new }
{
    match FormulaKind::try_from(f[at]) {
        Ok(FormulaKind::Equal) => equality(f, at + 1, state, out, left),
        Ok(FormulaKind::Not) => negation(s, f, at + 1, depth, state, m, out, left),
        Ok(FormulaKind::And) => conjunction(s, f, at + 1, depth, state, m, out, left),
        Ok(step) => stepping::step(s, f, step, at + 1, depth, state, m, out, left),
        Err(_) => None,
    }
}

// Two recipes, which stand at a position.
fn equality(f: &[u8], at: usize, state: State, out: &mut [u8], left: u32) -> Option<Judged>
    requires { (65536 ≤ length out.old) × (state.end ≤ 50592) × (state.aliases ≤ state.end) }
    ensures same_length { SameLength out.old out.new }
    ensures less { Less (left + 1) result }
    ensures equates { Equates f.now at state out.old left result out.new }
{
    match decide::terms(f, at, out, state.aliases, state.end) {
        Some(compared) => Some(Judged {
            truth: compared.same,
            limited: false,
            left,
        }),
        None => Some(Judged::at_limit(left)),
    }
}

// The negation of the formula at a position.
#[cycle(judging)]
fn negation(
    s: &[u8],
    f: &[u8],
    at: usize,
    depth: usize,
    state: State,
    m: &mut [u8],
    out: &mut [u8],
    left: u32,
) -> Option<Judged>
    requires { VisitRoom s.now out.old state }
    ensures same_length { SameLength m.old m.new }
    ensures same_length_2 { SameLength out.old out.new }
    ensures less { Less (left + 1) result }
    ensures negates { Negates s.now f.now at depth state m.old out.old left result out.new }
{
    let judged = judge(s, f, at, depth, Some(state), m, out, left)?;
    Some(Judged {
        truth: !judged.truth,
        ..judged
    })
}

// Two formulas, which stand at a position: both are judged.
#[cycle(judging)]
fn conjunction(
    s: &[u8],
    f: &[u8],
    at: usize,
    depth: usize,
    state: State,
    m: &mut [u8],
    out: &mut [u8],
    left: u32,
) -> Option<Judged>
    requires { VisitRoom s.now out.old state }
    ensures same_length { SameLength m.old m.new }
    ensures same_length_2 { SameLength out.old out.new }
    ensures less { Less (left + 1) result }
    ensures conjoins { Conjoins s.now f.now at depth state m.old out.old left result out.new }
{
    let first = judge(s, f, at, depth, Some(state), m, out, left)?;
    second(s, f, index::end(f, at), depth, state, m, out, first)
}

// The second of two formulas, with what the first came to.
#[cycle(judging)]
fn second(
    s: &[u8],
    f: &[u8],
    at: usize,
    depth: usize,
    state: State,
    m: &mut [u8],
    out: &mut [u8],
    first: Judged,
) -> Option<Judged>
    requires { VisitRoom s.now out.old state }
    ensures same_length { SameLength m.old m.new }
    ensures same_length_2 { SameLength out.old out.new }
    ensures less { Less first.left result }
    ensures seconds { Seconds s.now f.now at depth state m.old out.old first result out.new }
{
    let second = judge(s, f, at, depth, Some(state), m, out, first.left)?;
    Some(Judged {
        truth: first.truth & second.truth,
        limited: first.limited | second.limited,
        left: second.left,
    })
}
