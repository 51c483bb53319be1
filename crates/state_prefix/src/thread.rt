// What is done at a thread that acts by itself, for the tasks that do not follow it further ("Steps"; "Judging and its count").
ghost use Rattle.std.specs.Prelude.{◌≡◌, ◌+◌, ◌≤◌, ◌<◌, length};
ghost use Rattle.buffer.specs.Buffer.{WrittenFrom};
ghost use Rattle.state_progress.specs.Progress.{Extends, SameState};
ghost use Rattle.state_task.specs.Thread.{Judges, Offers, Settles, Agrees, HandsMessages, Hands, Channels, Seeks};
ghost use Rattle.state_task.specs.Machine.{eligible};
ghost use Rattle.index_process.specs.Index.{ShortModel};

use buffer::slice;
use decode_layout::process_kind::ProcessKind;
use decode_layout::{ends, process_kind};
use message_bytes::run;
use message_term::work;
use message_term::work::Worked;
use state_progress::progress::Progress;
use state_progress::{progress, written};
use state_record::state::State;
use state_task::task::Quest;

// The term at a position, worked for its limits.
fn judge(s: &[u8], at: usize, m: &mut [u8], end: usize, done: Progress) -> Progress
    requires { end + 4606 ≤ length m.old }
    ensures same_state { SameState done result }
    ensures written_from { WrittenFrom end m.old m.new }
    ensures judges { Judges s.now at m.old end done result }
{
    match work::term(s, at, m, 0, end) {
        Some(_) => done,
        None => progress::stop(done),
    }
}

// What the thread at a position offers by itself: the channel, and the message of an output.
pub fn offer(s: &[u8], at: usize, m: &mut [u8], end: usize, done: Progress) -> Progress
    requires { (end + 4606 ≤ length m.old) × (at < length s.now) }
    ensures same_state { SameState done result }
    ensures written_from { WrittenFrom end m.old m.new }
    ensures offers { Offers s.now at m.old end done result }
{
    let channel = judge(s, at + 1, m, end, done);
    match ProcessKind::try_from(s[at]) {
        Ok(ProcessKind::Input) => channel,
        _ => judge(s, ends::term(s, at + 1), m, end, channel),
    }
}

// The thread at a position, written and judged.
pub fn settle(
    s: &[u8],
    at: usize,
    m: &mut [u8],
    end: usize,
    out: &mut [u8],
    done: Progress,
) -> Progress
    requires { (end + 4606 ≤ length m.old) × (at < length s.now) × (ShortModel s.now) }
    ensures extends { Extends done result }
    ensures written_from { WrittenFrom end m.old m.new }
    ensures written_from_2 { WrittenFrom done.state.end out.old out.new }
    ensures settles { Settles s.now at m.old end out.old done result out.new }
{
    let pushed = written::push(m, end, at, out, done);
    let going = pushed.going;
    if going {
        return offer(s, at, m, end, pushed);
    }
    pushed
}

// Whether an output, or an input, at a position is one that is looked for, but for its channel.
pub fn meant(quest: Quest, at: usize, kind: usize) -> bool
    requires { at < 36864 }
    ensures { result ≡ eligible quest at kind }
{
    if at < quest.from {
        return false;
    }
    if at + 1 == quest.excluded {
        return false;
    }
    if kind == process_kind::OUTPUT {
        return quest.output;
    }
    !quest.output
}

// Whether a channel is the one that is sought, or any will do.
fn agrees(any: bool, channel: &[u8], argument: &[u8]) -> bool
    ensures { Agrees any channel.now argument.now result }
{
    any || run::compare(channel, argument)
}

// The messages of the output at a position, which stand in the bytes m, handed over.
fn send(
    m: &[u8],
    from: usize,
    to: usize,
    at: usize,
    names: usize,
    out: &mut [u8],
    done: Progress,
) -> Progress
    requires { (from ≤ to) × (to ≤ length m.now) × (at < 36864) }
    ensures extends { Extends done result }
    ensures written_from { WrittenFrom done.state.end out.old out.new }
    ensures hands_messages { HandsMessages m.now from to at names out.old done result out.new }
{
    let state = done.state;
    let last = state.end;
    if out.len() < last {
        return progress::stop(done);
    }
    if out.len() - last < to - from {
        return progress::stop(done);
    }
    slice::put(&m[from..to], out, last);
    let further = State {
        end: last + (to - from),
        ..state
    };
    Progress {
        going: false,
        names,
        mark: at + 1,
        sent: last,
        state: further,
    }
}

// An offer whose channel is the one that is looked for, and ends in the bytes m at last: found, with the messages of an output.
fn handed(
    s: &[u8],
    at: usize,
    next: usize,
    m: &mut [u8],
    end: usize,
    last: usize,
    names: usize,
    out: &mut [u8],
    done: Progress,
) -> Progress
    requires { (end ≤ last) × (last + 4096 ≤ length m.old) × (at < length s.now) × (ShortModel s.now) }
    ensures extends { Extends done result }
    ensures written_from { WrittenFrom last m.old m.new }
    ensures written_from_2 { WrittenFrom done.state.end out.old out.new }
    ensures hands { Hands s.now at next m.old end last names out.old done result out.new }
{
    match ProcessKind::try_from(s[at]) {
        Ok(ProcessKind::Input) => progress::hit(done, at, names),
        _ => match work::term(s, next, m, 0, last) {
            Some(message) => send(m, end, message.end, at, names, out, done),
            None => progress::stop(done),
        },
    }
}

// The channel of the offer at a position, worked and compared.
fn channel(
    s: &[u8],
    argument: &[u8],
    at: usize,
    m: &mut [u8],
    end: usize,
    any: bool,
    names: usize,
    out: &mut [u8],
    done: Progress,
) -> Progress
    requires { (end + 4606 ≤ length m.old) × (at < length s.now) × (ShortModel s.now) }
    ensures extends { Extends done result }
    ensures written_from { WrittenFrom end m.old m.new }
    ensures written_from_2 { WrittenFrom done.state.end out.old out.new }
    ensures channels { Channels s.now argument.now at m.old end any names out.old done result out.new }
{
    let Some(Worked { next, end: last }) = work::term(s, at + 1, m, 0, end) else {
        return progress::stop(done);
    };
    if agrees(any, &m[end..last], argument) {
        return handed(s, at, next, m, end, last, names, out, done);
    }
    done
}

// The offer at a position, if it is the one that is looked for.
pub fn seek(
    s: &[u8],
    argument: &[u8],
    at: usize,
    m: &mut [u8],
    end: usize,
    quest: Quest,
    names: usize,
    out: &mut [u8],
    done: Progress,
) -> Progress
    requires { (end + 4606 ≤ length m.old) × (at < length s.now) × (ShortModel s.now) }
    ensures extends { Extends done result }
    ensures written_from { WrittenFrom end m.old m.new }
    ensures written_from_2 { WrittenFrom done.state.end out.old out.new }
    ensures seeks { Seeks s.now argument.now at m.old end quest names out.old done result out.new }
{
    let any = quest.any;
    if meant(quest, at, usize::from(s[at])) {
        return channel(s, argument, at, m, end, any, names, out, done);
    }
    done
}
