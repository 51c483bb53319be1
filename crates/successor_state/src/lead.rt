// The state that a step leads to, formed behind the one that it leaves ("Steps"; "Judging and its count").
ghost use Rattle.std.specs.Prelude.{◌≤◌, length};
ghost use Rattle.buffer.specs.Buffer.{WrittenFrom};
ghost use Rattle.successor_state.specs.Lead.{LeadsAt, Leads, LeadsFor, LeadsOne};
ghost use Rattle.state_layout.specs.Layout.{StateFits};

use state_record::state::State;
use state_start::form;
use state_task::task::Task;
use step_label::step::{Actor, Label, Step};
use successor_continuation::names;
use successor_continuation::names::Rests;
use successor_frame::aliases;
use successor_prefix::alone;
use successor_rebuild::{kind, rebuild, tasks};
use successor_threadless::threadless;

// The state with the private names of its rests.
fn build(
    s: &[u8],
    state: State,
    step: Step,
    rests: Rests,
    message: &[u8],
    m: &mut [u8],
    out: &mut [u8],
) -> Option<State>
    requires { StateFits s.now out.old state }
    ensures written_from { WrittenFrom 0 m.old m.new }
    ensures written_from_2 { WrittenFrom state.end out.old out.new }
    ensures leads_at { LeadsAt s.now state step rests.last rests.next message.now m.old out.old result out.new }
{
    let label = step.label;
    let begun = aliases::carry(state, tasks::sends(label), message, rests.next, out);
    let todo = tasks::assign(step, rests.last, state.names);
    let task: Task = todo.task;
    let other: Task = todo.other;
    form::finish(rebuild::rebuild(
        s,
        message,
        state.start,
        state.end,
        m,
        todo.first,
        task,
        todo.second,
        other,
        out,
        begun,
    ))
}

// The state that a step leads to, with its threads: first the names of its rests are counted.
fn named(
    s: &[u8],
    state: State,
    step: Step,
    message: &[u8],
    m: &mut [u8],
    out: &mut [u8],
) -> Option<State>
    requires { StateFits s.now out.old state }
    ensures written_from { WrittenFrom 0 m.old m.new }
    ensures written_from_2 { WrittenFrom state.end out.old out.new }
    ensures leads { Leads s.now state step message.now m.old out.old result out.new }
{
    let rests = names::rest_names(s, state, step, message, m, out)?;
    build(s, state, step, rests, message, m, out)
}

// The same of an output or an input: a thread that acts itself is replaced at once.
fn one(
    s: &[u8],
    state: State,
    step: Step,
    actor: Actor,
    message: &[u8],
    m: &mut [u8],
    out: &mut [u8],
) -> Option<State>
    requires { StateFits s.now out.old state }
    ensures written_from { WrittenFrom 0 m.old m.new }
    ensures written_from_2 { WrittenFrom state.end out.old out.new }
    ensures leads_one { LeadsOne s.now state step actor message.now m.old out.old result out.new }
{
    let label = step.label;
    if kind::acts(s, state.end, actor.at, out) {
        return alone::form(s, state, tasks::sends(label), actor, message, m, out);
    }
    named(s, state, step, message, m, out)
}

// The state that a step leads to, with its threads.
fn whole(
    s: &[u8],
    state: State,
    step: Step,
    message: &[u8],
    m: &mut [u8],
    out: &mut [u8],
) -> Option<State>
    requires { StateFits s.now out.old state }
    ensures written_from { WrittenFrom 0 m.old m.new }
    ensures written_from_2 { WrittenFrom state.end out.old out.new }
    ensures leads { Leads s.now state step message.now m.old out.old result out.new }
{
    let label = step.label;
    match label {
        Label::Output => one(s, state, step, step.sender, message, m, out),
        Label::Input => one(s, state, step, step.taker, message, m, out),
        Label::Silent => named(s, state, step, message, m, out),
    }
}

// The state that a step leads to: the message is the one that is sent, or that of an input's label. Where stepless is true its threads may be
// left out.
pub fn lead(
    s: &[u8],
    state: State,
    step: Step,
    message: &[u8],
    stepless: bool,
    m: &mut [u8],
    out: &mut [u8],
) -> Option<State>
    requires { StateFits s.now out.old state }
    ensures written_from { WrittenFrom 0 m.old m.new }
    ensures written_from_2 { WrittenFrom state.end out.old out.new }
    ensures leads_for { LeadsFor stepless s.now state step message.now m.old out.old result out.new }
{
    if stepless {
        return match threadless::form(s, state, step, message, m, out) {
            Some(threadless) => Some(threadless),
            None => whole(s, state, step, message, m, out),
        };
    }
    whole(s, state, step, message, m, out)
}
