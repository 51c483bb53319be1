// Silent steps of two threads: the next pair of a sender and a taker ("Steps").
ghost use Rattle.std.specs.Prelude.{◌≤◌, length};
ghost use Rattle.buffer.specs.Buffer.{SameLength, WrittenFrom};
ghost use Rattle.step_between.specs.Between.{IsAhead, NextSender, Takes, Pairs, NextMeeting, Betweens};
ghost use Rattle.state_layout.specs.Layout.{RecordsFit};

use state_task::task;
use state_task::task::Quest;
use step_label::step::{Actor, Label, Step};
use step_offer::seek::Sighting;
use step_offer::{hand, seek};

// Whether a sender that was found is one that was sought: at a mark above x in the record at the position at, or in a later one.
fn follows(at: usize, x: usize, to: usize, long: usize, place: usize, mark: usize) -> bool
    ensures { IsAhead at x to long place mark result }
{
    if mark == 0 || long < mark || to <= place {
        return false;
    }
    if place == at {
        return x < mark;
    }
    at < place
}

// The first sender among the threads whose records stand from a position on.
fn sender(
    s: &[u8],
    at: usize,
    names: usize,
    to: usize,
    m: &mut [u8],
    x: usize,
    out: &mut [u8],
) -> Sighting
    requires { RecordsFit s.now out.old to }
    ensures written_from { WrittenFrom 0 m.old m.new }
    ensures written_from_2 { WrittenFrom to out.old out.new }
    ensures next_sender { NextSender s.now at names to m.old x out.old result out.new }
{
    seek::seek(
        s,
        &task::ANY,
        at,
        to,
        m,
        Quest {
            output: true,
            any: true,
            from: x,
            excluded: 0,
        },
        to,
        names,
        out,
    )
}

// The first taker, from a record and a position in it on, of a message of so many bytes that a sender sends on a channel.
pub fn take(
    s: &[u8],
    channel: &[u8],
    to: usize,
    m: &mut [u8],
    sender: Actor,
    taker: usize,
    y: usize,
    out: &mut [u8],
    size: usize,
) -> Option<Step>
    requires { RecordsFit s.now out.old to }
    ensures written_from { WrittenFrom 0 m.old m.new }
    ensures written_from_2 { WrittenFrom to out.old out.new }
    ensures takes { Takes s.now channel.now to m.old sender taker y out.old size result }
{
    let found = seek::seek(
        s,
        channel,
        taker,
        to,
        m,
        Quest {
            output: false,
            any: false,
            from: y,
            excluded: 0,
        },
        sender.at,
        sender.next,
        out,
    );
    if found.done.mark == 0 {
        return None;
    }
    Some(Step {
        label: Label::Silent,
        arity: 0,
        copy: 0,
        sender,
        taker: Actor {
            at: found.at,
            mark: found.done.mark,
            next: found.done.names,
        },
        size,
    })
}

// The first taker of what a sender sends that was found: its channel and its message are copied to the fronts of two slices, where they stay.
fn pair(
    s: &[u8],
    start: usize,
    to: usize,
    m: &mut [u8],
    sender: Sighting,
    out: &mut [u8],
    channel: &mut [u8],
    message: &mut [u8],
) -> Option<Step>
    requires { RecordsFit s.now out.old to }
    ensures written_from { WrittenFrom 0 m.old m.new }
    ensures written_from_2 { WrittenFrom to out.old out.new }
    ensures same_length { SameLength channel.old channel.new }
    ensures same_length_2 { SameLength message.old message.new }
    ensures pairs { Pairs s.now start to m.old sender out.old channel.old message.old result channel.new message.new }
{
    let handed = hand::hand(out, sender.done.sent, channel, message);
    let long = handed.channel;
    let next = sender.done.names;
    take(
        s,
        &channel[0..long],
        to,
        m,
        Actor {
            at: sender.at,
            mark: sender.done.mark,
            next,
        },
        start,
        0,
        out,
        handed.message,
    )
}

// The first pair of a sender and a taker in different threads of the state whose records stand from start to another position: senders from
// the record at the position at on, in it from x on.
#[cycle(pairing)]
pub fn between(
    s: &[u8],
    start: usize,
    at: usize,
    names: usize,
    to: usize,
    m: &mut [u8],
    x: usize,
    out: &mut [u8],
    channel: &mut [u8],
    message: &mut [u8],
) -> Option<Step>
    requires { RecordsFit s.now out.old to }
    ensures written_from { WrittenFrom 0 m.old m.new }
    ensures written_from_2 { WrittenFrom to out.old out.new }
    ensures same_length { SameLength channel.old channel.new }
    ensures same_length_2 { SameLength message.old message.new }
    ensures betweens { Betweens s.now start at names to m.old x out.old channel.old message.old result channel.new message.new }
{
    let found = sender(s, at, names, to, m, x, out);
    if follows(at, x, to, s.len(), found.at, found.done.mark) {
        return onward(s, start, names, to, m, found, out, channel, message);
    }
    None
}

// The same, where the sender was found already.
#[cycle(pairing)]
fn onward(
    s: &[u8],
    start: usize,
    names: usize,
    to: usize,
    m: &mut [u8],
    sender: Sighting,
    out: &mut [u8],
    channel: &mut [u8],
    message: &mut [u8],
) -> Option<Step>
    requires { RecordsFit s.now out.old to }
    ensures written_from { WrittenFrom 0 m.old m.new }
    ensures written_from_2 { WrittenFrom to out.old out.new }
    ensures same_length { SameLength channel.old channel.new }
    ensures same_length_2 { SameLength message.old message.new }
    ensures next_meeting { NextMeeting s.now start names to m.old sender out.old channel.old message.old result channel.new message.new }
{
    let at = sender.at;
    let mark = sender.done.mark;
    if let Some(step) = pair(s, start, to, m, sender, out, channel, message) {
        return Some(step);
    }
    between(s, start, at, names, to, m, mark, out, channel, message)
}
