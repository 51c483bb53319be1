// Silent steps in the copies of one thread: the next pair of a sender and a taker ("Steps").
ghost use Rattle.std.specs.Prelude.{◌≡◌, ◌+◌, ◌≤◌, length};
ghost use Rattle.buffer.specs.Buffer.{SameLength, WrittenFrom};
ghost use Rattle.step_copy_pair.specs.Meet.{copy_at, Looks, NextCopySender, PairsIn, Pairs, NextPair, Meets};
ghost use Rattle.step_transition.specs.CopyOffers.{inputs, left_out};
ghost use Rattle.index_process.specs.Index.{ShortModel};
ghost use Rattle.state_layout.specs.Layout.{RecordFits};

use state_progress::progress;
use state_progress::progress::Progress;
use state_start::loaded;
use state_task::task;
use state_task::task::{CopyAt, Quest, Task};
use step_label::step::{Actor, Label, Step};
use step_offer::hand;

// An offer in the copies of a repl thread of the thread whose record stands at a position.
fn look(
    s: &[u8],
    argument: &[u8],
    at: usize,
    names: usize,
    to: usize,
    m: &mut [u8],
    quest: Quest,
    copy: CopyAt,
    out: &mut [u8],
) -> Progress
    requires { RecordFits s.now out.old at }
    ensures written_from { WrittenFrom 0 m.old m.new }
    ensures written_from_2 { WrittenFrom to out.old out.new }
    ensures looks { Looks s.now argument.now at names to m.old quest copy out.old result out.new }
{
    loaded::traverse(
        s,
        argument,
        at,
        m,
        Task::SeekIn(quest, copy, names),
        out,
        progress::begin(to, names),
    )
}

// A sender in the first copy, from a position on.
fn sender(
    s: &[u8],
    at: usize,
    names: usize,
    to: usize,
    m: &mut [u8],
    copy: usize,
    from: usize,
    out: &mut [u8],
) -> Progress
    requires { RecordFits s.now out.old at }
    ensures written_from { WrittenFrom 0 m.old m.new }
    ensures written_from_2 { WrittenFrom to out.old out.new }
    ensures next_copy_sender { NextCopySender s.now at names to m.old copy from out.old result out.new }
{
    look(
        s,
        &task::ANY,
        at,
        names,
        to,
        m,
        Quest {
            output: true,
            any: true,
            from: from,
            excluded: 0,
        },
        CopyAt {
            place: copy,
            arity: 0,
            second: 0,
        },
        out,
    )
}

// The mark of the sender if one copy takes part, where a thread does not meet itself; otherwise none.
fn left_out(arity: usize, mark: usize) -> usize
    ensures { result ≡ left_out arity mark }
{
    if arity == 1 {
        return mark;
    }
    0
}

// A taker on the channel of a label, from a position on, for the sender that was found.
fn taker(
    s: &[u8],
    argument: &[u8],
    at: usize,
    names: usize,
    to: usize,
    m: &mut [u8],
    copy: usize,
    arity: usize,
    sender: Progress,
    from: usize,
    out: &mut [u8],
) -> Progress
    requires { RecordFits s.now out.old at }
    ensures written_from { WrittenFrom 0 m.old m.new }
    ensures written_from_2 { WrittenFrom to out.old out.new }
    ensures looks { Looks s.now argument.now at names to m.old (inputs from (left_out arity sender.mark)) (copy_at copy arity sender.names) out.old result out.new }
{
    look(
        s,
        argument,
        at,
        names,
        to,
        m,
        Quest {
            output: false,
            any: false,
            from: from,
            excluded: left_out(arity, sender.mark),
        },
        CopyAt {
            place: copy,
            arity: arity,
            second: sender.names,
        },
        out,
    )
}

// The first taker, from a position on, of what the sender that was found sends. Its channel is copied to a slice.
fn taken(
    s: &[u8],
    at: usize,
    names: usize,
    to: usize,
    m: &mut [u8],
    copy: usize,
    arity: usize,
    sender: Progress,
    from: usize,
    out: &mut [u8],
    channel: &mut [u8],
    message: &mut [u8],
) -> Option<Step>
    requires { RecordFits s.now out.old at }
    ensures written_from { WrittenFrom 0 m.old m.new }
    ensures written_from_2 { WrittenFrom to out.old out.new }
    ensures same_length { SameLength message.old message.new }
    ensures pairs_in { PairsIn channel.old s.now at names to m.old copy arity sender from out.old message.old result message.new }
{
    let handed = hand::hand(out, sender.sent, channel, message);
    let long = handed.channel;
    let taker = taker(
        s,
        &channel[0..long],
        at,
        names,
        to,
        m,
        copy,
        arity,
        sender,
        from,
        out,
    );
    let going = taker.going;
    if going {
        return None;
    }
    Some(Step {
        label: Label::Silent,
        arity: arity,
        copy: copy,
        sender: Actor {
            at: at,
            mark: sender.mark,
            next: sender.names,
        },
        taker: Actor {
            at: at,
            mark: taker.mark,
            next: taker.names,
        },
        size: handed.message,
    })
}

// The first taker, from a position on, of what the sender that was found sends.
fn pair(
    s: &[u8],
    at: usize,
    names: usize,
    to: usize,
    m: &mut [u8],
    copy: usize,
    arity: usize,
    sender: Progress,
    from: usize,
    out: &mut [u8],
    message: &mut [u8],
) -> Option<Step>
    requires { RecordFits s.now out.old at }
    ensures written_from { WrittenFrom 0 m.old m.new }
    ensures written_from_2 { WrittenFrom to out.old out.new }
    ensures same_length { SameLength message.old message.new }
    ensures pairs { Pairs s.now at names to m.old copy arity sender from out.old message.old result message.new }
{
    let mut channel: [u8; 510] = [0; 510];
    taken(
        s,
        at,
        names,
        to,
        m,
        copy,
        arity,
        sender,
        from,
        out,
        &mut channel[0..510],
        message,
    )
}

// The first pair of a sender that stands at the position x or after it, and a taker, of the first sender from the position y on.
#[cycle(meeting)]
pub fn meet(
    s: &[u8],
    at: usize,
    names: usize,
    to: usize,
    m: &mut [u8],
    copy: usize,
    arity: usize,
    x: usize,
    y: usize,
    out: &mut [u8],
    message: &mut [u8],
) -> Option<Step>
    requires { RecordFits s.now out.old at }
    ensures written_from { WrittenFrom 0 m.old m.new }
    ensures written_from_2 { WrittenFrom to out.old out.new }
    ensures same_length { SameLength message.old message.new }
    ensures meets { Meets s.now at names to m.old copy arity x y out.old message.old result message.new }
{
    let found = sender(s, at, names, to, m, copy, x, out);
    let mark = found.mark;
    let going = found.going;
    if going {
        return None;
    }
    if mark <= x {
        return None;
    }
    if s.len() < mark {
        return None;
    }
    onward(s, at, names, to, m, copy, arity, found, y, out, message)
}

// The same, where the sender was found already.
#[cycle(meeting)]
fn onward(
    s: &[u8],
    at: usize,
    names: usize,
    to: usize,
    m: &mut [u8],
    copy: usize,
    arity: usize,
    sender: Progress,
    y: usize,
    out: &mut [u8],
    message: &mut [u8],
) -> Option<Step>
    requires { (at + 4 ≤ length out.old) × (ShortModel s.now) × (sender.mark ≤ length s.now) }
    ensures written_from { WrittenFrom 0 m.old m.new }
    ensures written_from_2 { WrittenFrom to out.old out.new }
    ensures same_length { SameLength message.old message.new }
    ensures next_pair { NextPair s.now at names to m.old copy arity sender y out.old message.old result message.new }
{
    let mark = sender.mark;
    if let Some(step) = pair(s, at, names, to, m, copy, arity, sender, y, out, message) {
        return Some(step);
    }
    meet(s, at, names, to, m, copy, arity, mark, 0, out, message)
}
