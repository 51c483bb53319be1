// What follows a thread of a state that stands in the work bytes, settled ("Steps").
ghost use Rattle.std.specs.Prelude.{◌+◌, ◌≤◌, ◌<◌, length};
ghost use Rattle.buffer.specs.Buffer.{WrittenFrom};
ghost use Rattle.state_progress.specs.Progress.{Extends};
ghost use Rattle.successor_continuation.specs.Rest.{SettlesBehind, TakesBehind, SettlesRest, Rests};
ghost use Rattle.index_process.specs.Index.{ShortModel};
ghost use Rattle.state_layout.specs.Layout.{RecordFits};

use decode_layout::limit;
use decode_layout::process_kind::ProcessKind;
use message_binding::bind;
use message_bytes::run;
use state_progress::progress;
use state_progress::progress::Progress;
use state_record::stored;
use state_task::place;
use state_task::task::Task;
use state_traversal::traverse;

// The most process nodes on one path, but for the first.
const NODES: usize = limit::PROCESS_NODES - 1;

// What binding a message takes at most.
const BOUND: usize = run::LENGTH + 2;

// What follows the output or the input at a position, under the messages that are bound up to the position end.
fn settle(
    s: &[u8],
    argument: &[u8],
    at: usize,
    m: &mut [u8],
    end: usize,
    out: &mut [u8],
    done: Progress,
) -> Progress
    requires { (at < length s.now) × (end ≤ length m.old) × (ShortModel s.now) }
    ensures extends { Extends done result }
    ensures written_from { WrittenFrom end m.old m.new }
    ensures written_from_2 { WrittenFrom done.state.end out.old out.new }
    ensures settles_behind { SettlesBehind s.now argument.now at m.old end out.old done result out.new }
{
    let next = place::rest(s, at);
    if next < s.len() && matches!(ProcessKind::try_from(s[next]), Ok(ProcessKind::Nil)) {
        return done;
    }
    traverse::traverse(s, argument, next, NODES, m, end, Task::Settle, out, done)
}

// The same behind an input, under the message of the label too.
fn receive(
    s: &[u8],
    argument: &[u8],
    at: usize,
    m: &mut [u8],
    end: usize,
    out: &mut [u8],
    done: Progress,
) -> Progress
    requires { (at < length s.now) × (end ≤ length m.old) × (ShortModel s.now) }
    ensures extends { Extends done result }
    ensures written_from { WrittenFrom end m.old m.new }
    ensures written_from_2 { WrittenFrom done.state.end out.old out.new }
    ensures takes_behind { TakesBehind s.now argument.now at m.old end out.old done result out.new }
{
    if run::LENGTH < argument.len() {
        return progress::stop(done);
    }
    if m.len() - end < BOUND {
        return progress::stop(done);
    }
    let last = bind::message(argument, m, end);
    settle(s, argument, at, m, last, out, done)
}

// What follows the output or the input at a position, under the messages that are bound up to the position end, and under the message of the
// label too if it is an input.
pub fn offer(
    s: &[u8],
    argument: &[u8],
    at: usize,
    m: &mut [u8],
    end: usize,
    out: &mut [u8],
    done: Progress,
) -> Progress
    requires { (at < length s.now) × (end ≤ length m.old) × (ShortModel s.now) }
    ensures extends { Extends done result }
    ensures written_from { WrittenFrom end m.old m.new }
    ensures written_from_2 { WrittenFrom done.state.end out.old out.new }
    ensures settles_rest { SettlesRest s.now argument.now at m.old end out.old done result out.new }
{
    match ProcessKind::try_from(s[at]) {
        Ok(ProcessKind::Input) => receive(s, argument, at, m, end, out, done),
        _ => settle(s, argument, at, m, end, out, done),
    }
}

// What follows the thread whose record stands at a position, settled behind what is written already, under the message of the label too if
// it takes one. A repl thread is followed by nothing: the traversal goes no further.
pub fn rest(
    s: &[u8],
    argument: &[u8],
    at: usize,
    m: &mut [u8],
    out: &mut [u8],
    done: Progress,
) -> Progress
    requires { RecordFits s.now out.old at }
    ensures extends { Extends done result }
    ensures written_from { WrittenFrom 0 m.old m.new }
    ensures written_from_2 { WrittenFrom done.state.end out.old out.new }
    ensures rests { Rests s.now argument.now at m.old out.old done result out.new }
{
    let t = stored::load(out, at, m);
    let place = t.place;
    let end = t.end;
    if s.len() <= place {
        return progress::stop(done);
    }
    match ProcessKind::try_from(s[place]) {
        Ok(ProcessKind::Repl) => progress::stop(done),
        _ => offer(s, argument, place, m, end, out, done),
    }
}
