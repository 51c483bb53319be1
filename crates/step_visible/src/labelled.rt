// The next output or input on the channel of a label, in a state that stands in the work bytes ("Steps").
ghost use Rattle.std.specs.Prelude.{◌≡◌, true, false, ◌≤◌, length};
ghost use Rattle.buffer.specs.Buffer.{WrittenFrom};
ghost use Rattle.step_visible.specs.Labelled.{labelled_from, HandsOver, NextVisible, NextLabelled};
ghost use Rattle.state_layout.specs.Layout.{StateFits};

use message_bytes::run;
use state_progress::progress::Progress;
use state_record::state::State;
use state_task::task::Quest;
use step_label::step::{Actor, Label, Step};
use step_offer::{hand, seek};

// Outputs, or inputs, on the channel of the label, at a position or after it.
fn quest(output: bool, from: usize) -> Quest
    ensures { result ≡ labelled_from output from }
{
    Quest {
        output: output,
        any: false,
        from: from,
        excluded: 0,
    }
}

// The step of an output that was found: of the channel and the message, which stand in the work bytes, the message is copied.
fn handed(out: &[u8], at: usize, done: Progress, message: &mut [u8]) -> Option<Step>
    ensures written_from { WrittenFrom 0 message.old message.new }
    ensures hands_over { HandsOver out.now at done message.old result message.new }
{
    let from = done.sent;
    let long = out.len();
    if long < from {
        return None;
    }
    let mid = from + 2 * run::size(&out[from..long]);
    let size = hand::until(out, mid, done.state.end, message);
    Some(Step {
        label: Label::Output,
        arity: 0,
        copy: 0,
        sender: Actor {
            at: at,
            mark: done.mark,
            next: done.names,
        },
        taker: Actor {
            at: at,
            mark: 0,
            next: 0,
        },
        size: size,
    })
}

// The first output, or input, in the record at a position whose mark is above another one, or in a record behind it. An input hands over nothing.
fn visible(
    s: &[u8],
    channel: &[u8],
    state: State,
    output: bool,
    at: usize,
    from: usize,
    m: &mut [u8],
    out: &mut [u8],
    message: &mut [u8],
) -> Option<Step>
    requires { StateFits s.now out.old state }
    ensures written_from { WrittenFrom 0 m.old m.new }
    ensures written_from_2 { WrittenFrom state.end out.old out.new }
    ensures written_from_3 { WrittenFrom 0 message.old message.new }
    ensures next_visible { NextVisible output s.now channel.now state at from m.old out.old message.old result message.new }
{
    let found = seek::seek(
        s,
        channel,
        at,
        state.end,
        m,
        quest(output, from),
        state.end,
        state.names,
        out,
    );
    let place = found.at;
    let done = found.done;
    if done.mark == 0 {
        return None;
    }
    if output {
        return handed(out, place, done, message);
    }
    Some(Step {
        label: Label::Input,
        arity: 0,
        copy: 0,
        sender: Actor {
            at: place,
            mark: 0,
            next: 0,
        },
        taker: Actor {
            at: place,
            mark: done.mark,
            next: done.names,
        },
        size: 0,
    })
}

// The step that comes after a step with the label of an output or of an input, in the order of the definitions: the run of the message that
// an output sends is copied to the front of a slice. The step before the first one has its record at the start of the records, and the mark 0.
pub fn next(
    s: &[u8],
    state: State,
    step: Step,
    channel: &[u8],
    m: &mut [u8],
    out: &mut [u8],
    message: &mut [u8],
) -> Option<Step>
    requires { StateFits s.now out.old state }
    ensures written_from { WrittenFrom 0 m.old m.new }
    ensures written_from_2 { WrittenFrom state.end out.old out.new }
    ensures written_from_3 { WrittenFrom 0 message.old message.new }
    ensures next_labelled { NextLabelled s.now channel.now state step m.old out.old message.old result message.new }
{
    match step.label {
        Label::Output => visible(
            s,
            channel,
            state,
            true,
            step.sender.at,
            step.sender.mark,
            m,
            out,
            message,
        ),
        Label::Input => visible(
            s,
            channel,
            state,
            false,
            step.taker.at,
            step.taker.mark,
            m,
            out,
            message,
        ),
        Label::Silent => None,
    }
}
