// The steps of a state one after the other, for each label ("Steps").
ghost use Rattle.std.specs.Prelude.{◌≡◌, ◌≤◌, length};
ghost use Rattle.buffer.specs.Buffer.{SameLength, WrittenFrom};
ghost use Rattle.step_transition.specs.Behind.{arity_before, before};
ghost use Rattle.step_next.specs.Next.{Nexts};
ghost use Rattle.state_layout.specs.Layout.{StateFits};

use crate::silent;
use state_record::state::State;
use step_label::step::{Actor, Label, Step};
use step_visible::labelled;

// Where the search for silent steps begins is no place of a step: two copies of no repl thread.
fn arity(label: Label) -> usize
    ensures { result ≡ arity_before label }
{
    match label {
        Label::Output | Label::Input => 0,
        Label::Silent => 2,
    }
}

// Where the search for the steps of a label begins: before the first one.
pub fn before(label: Label, state: State) -> Step
    ensures { result ≡ before label state.start }
{
    let start = state.start;
    Step {
        label: label,
        arity: arity(label),
        copy: 0,
        sender: Actor {
            at: start,
            mark: 0,
            next: 0,
        },
        taker: Actor {
            at: start,
            mark: 0,
            next: 0,
        },
        size: 0,
    }
}

// The step after one of a label, whose channel's run is given. The message that is sent is written to the front of a slice, and the channel of
// a silent step of two threads to the front of another; there they are looked for when the step comes back.
pub fn next(
    s: &[u8],
    state: State,
    step: Step,
    channel: &[u8],
    m: &mut [u8],
    out: &mut [u8],
    buffered: &mut [u8],
    message: &mut [u8],
) -> Option<Step>
    requires { StateFits s.now out.old state }
    ensures written_from { WrittenFrom 0 m.old m.new }
    ensures written_from_2 { WrittenFrom state.end out.old out.new }
    ensures same_length { SameLength buffered.old buffered.new }
    ensures same_length_2 { SameLength message.old message.new }
    ensures nexts { Nexts s.now channel.now state step m.old out.old buffered.old message.old result buffered.new message.new }
{
    match step.label {
        Label::Output | Label::Input => labelled::next(s, state, step, channel, m, out, message),
        Label::Silent => silent::next(s, state, step, m, out, buffered, message),
    }
}
