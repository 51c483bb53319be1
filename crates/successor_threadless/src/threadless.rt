// The state that a step leads to, formed without its threads, for formulas that do not look at them ("Judging and its count"). What follows
// the processes that act is settled by itself and counted, what their copies add is bounded, and so the state is seen to be within its
// limits; or it is left open.
ghost use Rattle.std.specs.Prelude.{◌≤◌, length};
ghost use Rattle.buffer.specs.Buffer.{WrittenFrom};
ghost use Rattle.state_progress.specs.Progress.{Extends};
ghost use Rattle.successor_threadless.specs.Threadless.{FollowsOffer, FollowsIn, SettlesBoth, Settles, Bounds, Fits, FormsThreadless};
ghost use Rattle.state_layout.specs.Layout.{StateFits};

use crate::excess;
use crate::excess::Excess;
use state_progress::progress;
use state_progress::progress::Progress;
use state_record::state::State;
use state_start::form;
use step_label::step::{Actor, Label, Step};
use successor_continuation::{names, settled};
use successor_frame::aliases;
use successor_rebuild::tasks;

// What follows the process that acts in a thread of a state, settled after what follows another. Its copies open at a private name.
fn follow(
    s: &[u8],
    state: State,
    actor: Actor,
    opens: usize,
    message: &[u8],
    m: &mut [u8],
    out: &mut [u8],
    done: Progress,
) -> Progress
    requires { StateFits s.now out.old state }
    ensures extends { Extends done result }
    ensures written_from { WrittenFrom 0 m.old m.new }
    ensures written_from_2 { WrittenFrom done.state.end out.old out.new }
    ensures follows_offer { FollowsOffer s.now state actor opens message.now m.old out.old done result out.new }
{
    let going = done.going;
    let at = actor.at;
    if !going {
        return done;
    }
    if state.end < 4 {
        return progress::stop(done);
    }
    if state.end - 4 < at {
        return progress::stop(done);
    }
    settled::behind(s, message, at, opens, m, actor.mark, out, done)
}

// What follows the taker of a silent step in the copies of one thread, settled after what follows the sender.
fn follow_in(
    s: &[u8],
    state: State,
    step: Step,
    message: &[u8],
    m: &mut [u8],
    out: &mut [u8],
    done: Progress,
) -> Progress
    requires { StateFits s.now out.old state }
    ensures extends { Extends done result }
    ensures written_from { WrittenFrom 0 m.old m.new }
    ensures written_from_2 { WrittenFrom done.state.end out.old out.new }
    ensures follows_in { FollowsIn s.now state step message.now m.old out.old done result out.new }
{
    let going = done.going;
    let taker = step.taker;
    let at = taker.at;
    if !going {
        return done;
    }
    if state.end < 4 {
        return progress::stop(done);
    }
    if state.end - 4 < at {
        return progress::stop(done);
    }
    settled::behind_in(
        s,
        message,
        at,
        state.names,
        m,
        names::copies(step),
        taker.mark,
        out,
        done,
    )
}

// What follows the processes that act in a silent step, of two threads or in the copies of one.
fn settle_both(
    s: &[u8],
    state: State,
    step: Step,
    message: &[u8],
    m: &mut [u8],
    out: &mut [u8],
) -> Progress
    requires { StateFits s.now out.old state }
    ensures written_from { WrittenFrom 0 m.old m.new }
    ensures written_from_2 { WrittenFrom state.end out.old out.new }
    ensures settles_both { SettlesBoth s.now state step message.now m.old out.old result out.new }
{
    let sender = step.sender;
    let taker = step.taker;
    let arity = step.arity;
    let end = state.end;
    let begun = progress::begin(end, taker.next);
    let sent = follow(s, state, sender, state.names, message, m, out, begun);
    if arity == 0 {
        return follow(s, state, taker, sender.next, message, m, out, sent);
    }
    follow_in(s, state, step, message, m, out, sent)
}

// What follows the processes that act in a step.
fn settle(
    s: &[u8],
    state: State,
    step: Step,
    message: &[u8],
    m: &mut [u8],
    out: &mut [u8],
) -> Progress
    requires { StateFits s.now out.old state }
    ensures written_from { WrittenFrom 0 m.old m.new }
    ensures written_from_2 { WrittenFrom state.end out.old out.new }
    ensures settles { Settles s.now state step message.now m.old out.old result out.new }
{
    let label = step.label;
    let sender = step.sender;
    let taker = step.taker;
    let end = state.end;
    match label {
        Label::Output => follow(
            s,
            state,
            sender,
            state.names,
            message,
            m,
            out,
            progress::begin(end, sender.next),
        ),
        Label::Input => follow(
            s,
            state,
            taker,
            state.names,
            message,
            m,
            out,
            progress::begin(end, taker.next),
        ),
        Label::Silent => settle_both(s, state, step, message, m, out),
    }
}

// Whether four numbers together are within a limit.
fn within(limit: usize, a: usize, b: usize, c: usize, d: usize) -> bool
    ensures { Bounds limit a b c d result }
{
    if limit < a {
        return false;
    }
    if limit - a < b {
        return false;
    }
    if limit - a - b < c {
        return false;
    }
    d <= limit - a - b - c
}

// Whether what was settled, a message of so many bytes and what the copies of a step add surely have room in a state, with the threads that
// it has. The bytes stand for the nodes that the message adds as an alias: a node takes two bytes, so there are at most half as many, and
// none if the message is not sent.
fn fits(state: State, added: Excess, rests: Progress, size: usize) -> bool
    ensures { Fits state added rests size result }
{
    let going = rests.going;
    let settled = rests.state;
    if !going {
        return false;
    }
    if State::NAMES < rests.names {
        return false;
    }
    if within(
        State::THREADS,
        state.threads,
        added.threads,
        settled.threads,
        0,
    ) {
        return within(State::NODES, state.nodes, added.nodes, settled.nodes, size);
    }
    false
}

// The state that a step leads to without its threads, if it is seen to be within its limits.
pub fn form(
    s: &[u8],
    state: State,
    step: Step,
    message: &[u8],
    m: &mut [u8],
    out: &mut [u8],
) -> Option<State>
    requires { StateFits s.now out.old state }
    ensures written_from { WrittenFrom 0 m.old m.new }
    ensures written_from_2 { WrittenFrom state.end out.old out.new }
    ensures forms_threadless { FormsThreadless s.now state step message.now m.old out.old result out.new }
{
    let label = step.label;
    let added = excess::of_step(s, state, step, out);
    if State::THREADS < added.threads {
        return None;
    }
    let rests = settle(s, state, step, message, m, out);
    if fits(state, added, rests, message.len()) {
        return form::finish(aliases::carry(state, tasks::sends(label), message, rests.names, out));
    }
    None
}
