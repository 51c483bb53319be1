// The step after one, and the state that it leads to ("Steps"; "Judging and its count").
ghost use Rattle.std.specs.Prelude.{◌≤◌, length};
ghost use Rattle.buffer.specs.Buffer.{SameLength, WrittenFrom};
ghost use Rattle.successor_next.specs.Arrive.{LeavesBySending, Leaves, Arrives};
ghost use Rattle.state_layout.specs.Layout.{StateFits};

use state_record::state::State;
use step_label::step::{Label, Step};
use step_next::next;
use successor_state::lead;

// A step, and the state that it leads to; no state if that is over a limit.
#[derive(Clone, Copy)]
pub struct Arrived {
    pub step: Step,
    pub formed: Option<State>,
}

// Where a step leads that sends the message at the front of a slice. No step sends one that is longer than the slice.
fn sent(
    s: &[u8],
    state: State,
    step: Step,
    message: &[u8],
    stepless: bool,
    m: &mut [u8],
    out: &mut [u8],
) -> Option<State>
    requires { StateFits s.now out.old state }
    ensures written_from { WrittenFrom 0 m.old m.new }
    ensures written_from_2 { WrittenFrom state.end out.old out.new }
    ensures leaves_by_sending { LeavesBySending stepless s.now message.now state step m.old out.old result out.new }
{
    let size = step.size;
    if message.len() < size {
        return None;
    }
    lead::lead(s, state, step, &message[0..size], stepless, m, out)
}

// Where a step leads, with the message that is sent at the front of one slice, and the message of an input's label in another.
fn led(
    s: &[u8],
    state: State,
    step: Step,
    taken: &[u8],
    message: &[u8],
    stepless: bool,
    m: &mut [u8],
    out: &mut [u8],
) -> Option<State>
    requires { StateFits s.now out.old state }
    ensures written_from { WrittenFrom 0 m.old m.new }
    ensures written_from_2 { WrittenFrom state.end out.old out.new }
    ensures leaves { Leaves stepless s.now taken.now message.now state step m.old out.old result out.new }
{
    match step.label {
        Label::Input => lead::lead(s, state, step, taken, stepless, m, out),
        Label::Output | Label::Silent => sent(s, state, step, message, stepless, m, out),
    }
}

// The step after one of a state, whose label's channel is given and, for an input, its message; and the state that it leads to, whose threads
// may be left out where stepless is true. What the step sends is written to the front of a slice, and the channel of a silent step of two threads
// to the front of another, where those of the step before stand.
pub fn next(
    s: &[u8],
    state: State,
    step: Step,
    channel: &[u8],
    taken: &[u8],
    stepless: bool,
    m: &mut [u8],
    out: &mut [u8],
    buffered: &mut [u8],
    message: &mut [u8],
) -> Option<Arrived>
    requires { StateFits s.now out.old state }
    ensures written_from { WrittenFrom 0 m.old m.new }
    ensures written_from_2 { WrittenFrom state.end out.old out.new }
    ensures same_length { SameLength buffered.old buffered.new }
    ensures same_length_2 { SameLength message.old message.new }
    ensures arrives { Arrives stepless s.now channel.now taken.now state step m.old out.old buffered.old message.old result out.new buffered.new message.new }
{
    let found = next::next(s, state, step, channel, m, out, buffered, message)?;
    let formed = led(s, state, found, taken, message, stepless, m, out);
    Some(Arrived {
        step: found,
        formed,
    })
}
