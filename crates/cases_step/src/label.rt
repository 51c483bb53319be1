// The labels of a case: what they are, how many bytes they take, where a level of them ends, and the messages of their recipes.
ghost use Rattle.std.specs.Prelude.{◌+◌, ◌≤◌, ◌<◌, length};

use crate::space::Space;
use buffer::slice;
use message_term::work;
use message_term::work::Worked;
use state_record::state::State;
use step_label::step::Label;

// What the label with this first byte is.
pub(crate) fn kind(first: u8) -> Label {
    match first {
        3 => Label::Output,
        4 => Label::Input,
        _ => Label::Silent,
    }
}

// How many bytes the label with this first byte takes.
pub(crate) fn width(first: u8) -> usize
    ensures { (1 ≤ result) × (result ≤ 5) }
{
    match first {
        3 => 3,
        4 => 5,
        _ => 1,
    }
}

// Where the level ends whose labels stand from a position on: at its 00, or with the labels.
pub(crate) fn level_end(labels: &[u8], at: usize) -> usize
    requires { at ≤ length labels.now }
    ensures { result ≤ length labels.now }
{
    let mut i = at;
    while let Some(first) = labels.get(i) {
        if *first == 0 {
            return i;
        }
        i += width(*first);
    }
    labels.len()
}

// Copies the messages of a state's aliases to the front of m, and answers how many bytes they take. There is room to work a recipe behind
// them.
fn aliases(state: State, out: &[u8], m: &mut [u8]) -> usize
    requires { 4096 ≤ length m.old }
    ensures result_in_bounds { result + 4096 ≤ length m.old }
    ensures m_in_bounds { length m.old ≤ length m.new }
{
    let x = out.get(state.aliases..state.start).unwrap_or_default();
    if m.len() - work::REACH < x.len() {
        return 0;
    }
    slice::put(x, m, 0);
    x.len()
}

// Works the recipe at a position under the aliases of a state, writes its run to the front of a slice, and answers how many bytes it
// takes.
fn recipe(labels: &[u8], at: usize, state: State, space: &mut Space, message: &mut [u8]) -> usize
    ensures { result ≤ length message.old }
{
    let base = aliases(state, &space.out, &mut space.m);
    let x = match work::term(labels, at, &mut space.m, 0, base) {
        Some(Worked { end, .. }) => space.m.get(base..end).unwrap_or_default(),
        None => &[],
    };
    if message.len() < x.len() {
        return 0;
    }
    slice::put(x, message, 0);
    x.len()
}

// Writes the run of the channel of the label at a position, if it has one, to the front of a slice, and answers how many bytes it takes.
pub(crate) fn channel(
    labels: &[u8],
    at: usize,
    state: State,
    space: &mut Space,
    message: &mut [u8],
) -> usize
    requires { at < length labels.now }
    ensures { result ≤ length message.old }
{
    match kind(labels[at]) {
        Label::Silent => 0,
        _ => recipe(labels, at + 1, state, space, message),
    }
}

// The same for the message that an input takes.
pub(crate) fn taken(
    labels: &[u8],
    at: usize,
    state: State,
    space: &mut Space,
    message: &mut [u8],
) -> usize
    requires { at < length labels.now }
    ensures { result ≤ length message.old }
{
    match kind(labels[at]) {
        Label::Input => recipe(labels, at + 3, state, space, message),
        _ => 0,
    }
}
