// The next silent step: those of single threads in their copies come first, then those of two threads ("Steps").
ghost use Rattle.std.specs.Prelude.{◌≡◌, ◌≤◌, length};
ghost use Rattle.buffer.specs.Buffer.{SameLength, WrittenFrom};
ghost use Rattle.step_next.specs.Next.{place_of, NextBetween, NextJoint, NextSilent};
ghost use Rattle.state_layout.specs.Layout.{StateFits};

use message_bytes::run;
use state_record::state::State;
use step_between::between;
use step_copies::copy_step;
use step_label::step::Step;

// The position of a mark.
fn place(mark: usize) -> usize
    ensures { result ≡ place_of mark }
{
    if mark == 0 {
        return 0;
    }
    mark - 1
}

// The next silent step of two threads behind one: the takers of its sender that are left, whose channel and message are at hand, and then the
// senders after it.
fn later(
    s: &[u8],
    state: State,
    step: Step,
    m: &mut [u8],
    out: &mut [u8],
    channel: &mut [u8],
    message: &mut [u8],
) -> Option<Step>
    requires { StateFits s.now out.old state }
    ensures written_from { WrittenFrom 0 m.old m.new }
    ensures written_from_2 { WrittenFrom state.end out.old out.new }
    ensures same_length { SameLength channel.old channel.new }
    ensures same_length_2 { SameLength message.old message.new }
    ensures next_between { NextBetween s.now state step m.old out.old channel.old message.old result channel.new message.new }
{
    let sender = step.sender;
    let taker = step.taker;
    let long = 2 * run::size(channel);
    if let Some(found) = between::take(
        s,
        &channel[0..long],
        state.end,
        m,
        sender,
        taker.at,
        taker.mark,
        out,
        step.size,
    ) {
        return Some(found);
    }
    between::between(
        s,
        state.start,
        sender.at,
        state.names,
        state.end,
        m,
        sender.mark,
        out,
        channel,
        message,
    )
}

// The next silent step behind one, or the first one. The channel of a step of two threads stands at the front of one slice, and what a step
// sends at the front of another.
pub fn next(
    s: &[u8],
    state: State,
    step: Step,
    m: &mut [u8],
    out: &mut [u8],
    channel: &mut [u8],
    message: &mut [u8],
) -> Option<Step>
    requires { StateFits s.now out.old state }
    ensures written_from { WrittenFrom 0 m.old m.new }
    ensures written_from_2 { WrittenFrom state.end out.old out.new }
    ensures same_length { SameLength channel.old channel.new }
    ensures same_length_2 { SameLength message.old message.new }
    ensures next_silent { NextSilent s.now state step m.old out.old channel.old message.old result channel.new message.new }
{
    let arity = step.arity;
    if arity == 0 {
        return later(s, state, step, m, out, channel, message);
    }
    first(s, state, step, m, out, channel, message)
}

// Those in copies from a step on, and then all those of two threads.
fn first(
    s: &[u8],
    state: State,
    step: Step,
    m: &mut [u8],
    out: &mut [u8],
    channel: &mut [u8],
    message: &mut [u8],
) -> Option<Step>
    requires { StateFits s.now out.old state }
    ensures written_from { WrittenFrom 0 m.old m.new }
    ensures written_from_2 { WrittenFrom state.end out.old out.new }
    ensures same_length { SameLength channel.old channel.new }
    ensures same_length_2 { SameLength message.old message.new }
    ensures next_joint { NextJoint s.now state step m.old out.old channel.old message.old result channel.new message.new }
{
    let start = state.start;
    let sender = step.sender;
    let taker = step.taker;
    if let Some(found) = copy_step::copy_step(
        s,
        sender.at,
        state.names,
        state.end,
        m,
        step.copy,
        step.arity,
        place(sender.mark),
        taker.mark,
        copy_step::GROUPS,
        out,
        message,
    ) {
        return Some(found);
    }
    between::between(
        s,
        start,
        start,
        state.names,
        state.end,
        m,
        0,
        out,
        channel,
        message,
    )
}
