// The private names that the rests of a step take ("Steps").
ghost use Rattle.std.specs.Prelude.{◌≡◌, ◌≤◌, length};
ghost use Rattle.buffer.specs.Buffer.{WrittenFrom};
ghost use Rattle.successor_continuation.specs.Rests.{step_copies, CountsActor, CountsTaker, SettlesSilent, Settles};
ghost use Rattle.state_layout.specs.Layout.{StateFits};

use crate::counting;
use state_record::state::State;
use state_task::task::CopyAt;
use step_label::step::{Actor, Label, Step};

// The private names of the rests of a step.
#[derive(Clone, Copy)]
pub struct Rests {
    // The one at which the rest of a silent step's taker is settled; 0 for other steps.
    pub last: usize,
    // The next one after all rests.
    pub next: usize,
}

// The private names of the rests of a step: those of the sender's come before those of the taker's. There are none where a rest meets a limit.
pub fn rest_names(
    s: &[u8],
    state: State,
    step: Step,
    message: &[u8],
    m: &mut [u8],
    out: &[u8],
) -> Option<Rests>
    requires { StateFits s.now out.now state }
    ensures written_from { WrittenFrom 0 m.old m.new }
    ensures settles { Settles s.now state step message.now m.old out.now result }
{
    let label = step.label;
    let sender = step.sender;
    let taker = step.taker;
    match label {
        Label::Output => {
            let next = after(s, state, sender, sender.next, message, m, out)?;
            Some(Rests { last: 0, next })
        }
        Label::Input => {
            let next = after(s, state, taker, taker.next, message, m, out)?;
            Some(Rests { last: 0, next })
        }
        Label::Silent => silent_names(s, state, step, message, m, out),
    }
}

// The same for a silent step.
fn silent_names(
    s: &[u8],
    state: State,
    step: Step,
    message: &[u8],
    m: &mut [u8],
    out: &[u8],
) -> Option<Rests>
    requires { StateFits s.now out.now state }
    ensures written_from { WrittenFrom 0 m.old m.new }
    ensures settles_silent { SettlesSilent s.now state step message.now m.old out.now result }
{
    let sender = step.sender;
    let taker = step.taker;
    let last = after(s, state, sender, taker.next, message, m, out)?;
    let next = after_taker(s, state, step, last, message, m, out)?;
    Some(Rests { last, next })
}

// The private name after those of the rest of a thread that acts, settled at a private name.
fn after(
    s: &[u8],
    state: State,
    actor: Actor,
    names: usize,
    message: &[u8],
    m: &mut [u8],
    out: &[u8],
) -> Option<usize>
    requires { StateFits s.now out.now state }
    ensures written_from { WrittenFrom 0 m.old m.new }
    ensures counts_actor { CountsActor s.now state actor state.names names message.now m.old out.now result }
{
    let at = actor.at;
    if state.end < 4 {
        return None;
    }
    if state.end - 4 < at {
        return None;
    }
    counting::count(s, message, at, state.names, m, actor.mark, names, out)
}

// The copies in which the taker of a silent step is, if that is in the thread of the sender.
pub fn copies(step: Step) -> CopyAt
    ensures { result ≡ step_copies step }
{
    let sender = step.sender;
    CopyAt {
        place: step.copy,
        arity: step.arity,
        second: sender.next,
    }
}

// The same for the taker of a silent step: in another thread, whose copies open after the sender's; or in the copies of one thread.
fn after_taker(
    s: &[u8],
    state: State,
    step: Step,
    names: usize,
    message: &[u8],
    m: &mut [u8],
    out: &[u8],
) -> Option<usize>
    requires { StateFits s.now out.now state }
    ensures written_from { WrittenFrom 0 m.old m.new }
    ensures counts_taker { CountsTaker s.now state step names message.now m.old out.now result }
{
    let sender = step.sender;
    let taker = step.taker;
    let at = taker.at;
    let arity = step.arity;
    if state.end < 4 {
        return None;
    }
    if state.end - 4 < at {
        return None;
    }
    if arity == 0 {
        return counting::count(s, message, at, sender.next, m, taker.mark, names, out);
    }
    counting::count_in(
        s,
        message,
        at,
        state.names,
        m,
        copies(step),
        taker.mark,
        names,
        out,
    )
}
