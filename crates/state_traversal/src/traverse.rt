// The traversal of a process: it settles from left to right, and does what the task says at each thread that is left ("Steps"). Copies are traversed
// over where they stand in the model, and never stored. Nothing is validated again: where no process stands, the answer is open.
ghost use Rattle.std.specs.Prelude.{◌≤◌, ◌<◌, length};
ghost use Rattle.buffer.specs.Buffer.{WrittenFrom};
ghost use Rattle.state_head.specs.Traverse.{Leaves, Traverses, HeadTraverses, TraversesIf, AtPrefix, ActsAs, SettlesContinuation, Receives, Performs, OpensBoth, OpensBy, Opens, Returns};
ghost use Rattle.state_progress.specs.Progress.{Extends};
ghost use Rattle.state_head.specs.Head.{RoomAtNode, BoundFits};
ghost use Rattle.index_process.specs.Index.{ShortModel};

use decode_layout::process_kind::ProcessKind;
use index_process::index;
use message_binding::bind;
use message_bytes::run;
use state_head::head::Head;
use state_head::{count, head};
use state_prefix::thread;
use state_progress::progress::Progress;
use state_progress::{progress, written};
use state_replication::copies;
use state_task::opening::{Copies, Opening};
use state_task::task::{Plan, Task};
use state_task::{place, task};

// The process at a position, with so many nodes left on its path, under the messages that are bound up to the position end. The argument is
// the run of a message: the channel on which an offer is sought, or the message that a taker binds.
#[cycle(traversing)]
pub fn traverse(
    s: &[u8],
    argument: &[u8],
    at: usize,
    left: usize,
    m: &mut [u8],
    end: usize,
    task: Task,
    out: &mut [u8],
    done: Progress,
) -> Progress
    requires { BoundFits s.now m.old end }
    ensures extends { Extends done result }
    ensures written_from { WrittenFrom end m.old m.new }
    ensures written_from_2 { WrittenFrom done.state.end out.old out.new }
    ensures traverses { Traverses s.now argument.now at left m.old end task out.old done result out.new }
{
    let going = done.going;
    if !going {
        return done;
    }
    let names = done.names;
    let Some(head) = head::descend(s, at, left, m, end, names) else {
        return progress::stop(done);
    };
    node(s, argument, head, m, task, out, done)
}

// The same at the head of a process, where a node is left for it, and room to work terms.
#[cycle(traversing)]
fn node(
    s: &[u8],
    argument: &[u8],
    head: Head,
    m: &mut [u8],
    task: Task,
    out: &mut [u8],
    done: Progress,
) -> Progress
    requires { RoomAtNode s.now head.at head.left m.old head.end }
    ensures leaves { Leaves head.end m.old m.new out.old out.new done result }
    ensures head_traverses { HeadTraverses s.now argument.now head m.old task out.old done result out.new }
{
    let at = head.at;
    let left = head.left;
    let end = head.end;
    let names = head.names;
    let done = progress::named(done, names);
    let kind = s[at];
    if kind == ProcessKind::Nil as u8 {
        return done;
    }
    if kind == ProcessKind::Par as u8 {
        return both(s, argument, at, left, m, end, task, out, done);
    }
    if kind == ProcessKind::Repl as u8 {
        return repl(s, argument, at, left, m, end, task, out, done);
    }
    prefix(s, argument, at, left, m, end, task, out, done)
}

// Par: the first side, and then the second.
#[cycle(traversing)]
fn both(
    s: &[u8],
    argument: &[u8],
    at: usize,
    left: usize,
    m: &mut [u8],
    end: usize,
    task: Task,
    out: &mut [u8],
    done: Progress,
) -> Progress
    requires { RoomAtNode s.now at left m.old end }
    ensures leaves { Leaves end m.old m.new out.old out.new done result }
    ensures traverses_if { TraversesIf 6 s.now argument.now at left m.old end task out.old done result out.new }
{
    let first = traverse(s, argument, at + 1, left - 1, m, end, task, out, done);
    traverse(
        s,
        argument,
        index::end(s, at + 1),
        left - 1,
        m,
        end,
        task,
        out,
        first,
    )
}

// A thread that acts by itself.
#[cycle(traversing)]
fn prefix(
    s: &[u8],
    argument: &[u8],
    at: usize,
    left: usize,
    m: &mut [u8],
    end: usize,
    task: Task,
    out: &mut [u8],
    done: Progress,
) -> Progress
    requires { RoomAtNode s.now at left m.old end }
    ensures leaves { Leaves end m.old m.new out.old out.new done result }
    ensures at_prefix { AtPrefix s.now argument.now at left m.old end task out.old done result out.new }
{
    match task {
        Task::Count => done,
        Task::Judge(_) => thread::offer(s, at, m, end, done),
        Task::Settle => thread::settle(s, at, m, end, out, done),
        Task::Seek(quest, opens) => thread::seek(s, argument, at, m, end, quest, opens, out, done),
        Task::SeekIn(_, _, _) => done,
        Task::Find(_, _, _) => done,
        Task::Build(plan, _) => act(s, argument, at, left, m, end, plan, out, done),
        Task::BuildIn(_, _, _) => written::push(m, end, at, out, done),
    }
}

// A thread that acts by itself, as a step leaves it: what follows the sender or the taker is settled in its place.
#[cycle(traversing)]
pub fn act(
    s: &[u8],
    argument: &[u8],
    at: usize,
    left: usize,
    m: &mut [u8],
    end: usize,
    plan: Plan,
    out: &mut [u8],
    done: Progress,
) -> Progress
    requires { RoomAtNode s.now at left m.old end }
    ensures leaves { Leaves end m.old m.new out.old out.new done result }
    ensures acts_as { ActsAs plan s.now argument.now at left m.old end out.old done result out.new }
{
    let sender = plan.sender;
    let taker = plan.taker;
    let rest = plan.rest;
    let last = plan.last;
    if at + 1 == sender {
        return follow(s, argument, at, left, m, end, rest, out, done);
    }
    if at + 1 == taker {
        return receive(s, argument, at, left, m, end, last, out, done);
    }
    written::push(m, end, at, out, done)
}

// What follows the thread at a position, settled at a private name.
#[cycle(traversing)]
fn follow(
    s: &[u8],
    argument: &[u8],
    at: usize,
    left: usize,
    m: &mut [u8],
    end: usize,
    names: usize,
    out: &mut [u8],
    done: Progress,
) -> Progress
    requires { (1 ≤ left) × (at < length s.now) × (end ≤ length m.old) × (ShortModel s.now) }
    ensures leaves { Leaves end m.old m.new out.old out.new done result }
    ensures settles_continuation { SettlesContinuation names s.now argument.now at left m.old end out.old done result out.new }
{
    let before = done.names;
    inside(
        s,
        argument,
        place::rest(s, at),
        left - 1,
        m,
        end,
        Task::Settle,
        out,
        progress::named(done, names),
        before,
    )
}

// The same under the argument too, which is the message that is taken.
#[cycle(traversing)]
fn receive(
    s: &[u8],
    argument: &[u8],
    at: usize,
    left: usize,
    m: &mut [u8],
    end: usize,
    names: usize,
    out: &mut [u8],
    done: Progress,
) -> Progress
    requires { RoomAtNode s.now at left m.old end }
    ensures leaves { Leaves end m.old m.new out.old out.new done result }
    ensures receives { Receives names s.now argument.now at left m.old end out.old done result out.new }
{
    if run::LENGTH < argument.len() {
        return progress::stop(done);
    }
    let last = bind::message(argument, m, end);
    follow(s, argument, at, left, m, last, names, out, done)
}

// Repl: a thread, of which copies are opened as the task needs them.
#[cycle(traversing)]
fn repl(
    s: &[u8],
    argument: &[u8],
    at: usize,
    left: usize,
    m: &mut [u8],
    end: usize,
    task: Task,
    out: &mut [u8],
    done: Progress,
) -> Progress
    requires { RoomAtNode s.now at left m.old end }
    ensures leaves { Leaves end m.old m.new out.old out.new done result }
    ensures traverses_if { TraversesIf 7 s.now argument.now at left m.old end task out.old done result out.new }
{
    let names = done.names;
    let copies = copies::needed(s, at, task, names);
    let own = copies.own;
    let begun = copies::begin(m, end, at, own, out, done);
    perform(s, argument, at, left, m, end, copies, out, begun)
}

// Its copies, and then the thread itself.
#[cycle(traversing)]
fn perform(
    s: &[u8],
    argument: &[u8],
    at: usize,
    left: usize,
    m: &mut [u8],
    end: usize,
    copies: Copies,
    out: &mut [u8],
    done: Progress,
) -> Progress
    requires { (1 ≤ left) × (at < length s.now) × (end ≤ length m.old) × (ShortModel s.now) }
    ensures leaves { Leaves end m.old m.new out.old out.new done result }
    ensures performs { Performs copies s.now argument.now at left m.old end out.old done result out.new }
{
    let own = copies.own;
    let opened = pair(s, argument, at, left, m, end, copies, out, done);
    copies::finish(m, end, at, own, out, opened)
}

// The first copy, and then the second.
#[cycle(traversing)]
fn pair(
    s: &[u8],
    argument: &[u8],
    at: usize,
    left: usize,
    m: &mut [u8],
    end: usize,
    copies: Copies,
    out: &mut [u8],
    done: Progress,
) -> Progress
    requires { (1 ≤ left) × (at < length s.now) × (end ≤ length m.old) × (ShortModel s.now) }
    ensures leaves { Leaves end m.old m.new out.old out.new done result }
    ensures opens_both { OpensBoth copies s.now argument.now at left m.old end out.old done result out.new }
{
    let first = copies.first;
    let second = copies.second;
    let opened = enter(s, argument, at, left, m, end, first, out, done);
    enter(s, argument, at, left, m, end, second, out, opened)
}

// A copy, if there is one and the traversal still goes on.
#[cycle(traversing)]
fn enter(
    s: &[u8],
    argument: &[u8],
    at: usize,
    left: usize,
    m: &mut [u8],
    end: usize,
    opening: Opening,
    out: &mut [u8],
    done: Progress,
) -> Progress
    requires { (1 ≤ left) × (at < length s.now) × (end ≤ length m.old) × (ShortModel s.now) }
    ensures leaves { Leaves end m.old m.new out.old out.new done result }
    ensures opens_by { OpensBy opening s.now argument.now at left m.old end out.old done result out.new }
{
    let going = done.going;
    let before = done.names;
    if going {
        return match opening {
            Opening::None => done,
            Opening::Copy(task, opens) => copy(
                s, argument, at, left, m, end, task, opens, out, done,
            ),
            Opening::Again(task, opens) => inside(
                s,
                argument,
                at + 1,
                left - 1,
                m,
                end,
                task,
                out,
                progress::named(done, opens),
                before,
            ),
        };
    }
    done
}

// A copy of the repl thread at a position, opened at a private name: its names are counted, since copies inside it open after them, and
// then the task is done in it. The names are given back.
#[cycle(traversing)]
fn copy(
    s: &[u8],
    argument: &[u8],
    at: usize,
    left: usize,
    m: &mut [u8],
    end: usize,
    task: Task,
    opens: usize,
    out: &mut [u8],
    done: Progress,
) -> Progress
    requires { (1 ≤ left) × (at < length s.now) × (end ≤ length m.old) × (ShortModel s.now) }
    ensures leaves { Leaves end m.old m.new out.old out.new done result }
    ensures opens { Opens task opens s.now argument.now at left m.old end out.old done result out.new }
{
    let before = done.names;
    let Some(names) = count::count(s, at + 1, left - 1, m, end, opens) else {
        return progress::stop(done);
    };
    inside(
        s,
        argument,
        at + 1,
        left - 1,
        m,
        end,
        task::opening(task, names),
        out,
        progress::named(done, opens),
        before,
    )
}

// The traversal of a process, after which the next private name is the one from before.
#[cycle(traversing)]
fn inside(
    s: &[u8],
    argument: &[u8],
    at: usize,
    left: usize,
    m: &mut [u8],
    end: usize,
    task: Task,
    out: &mut [u8],
    done: Progress,
    before: usize,
) -> Progress
    requires { BoundFits s.now m.old end }
    ensures leaves { Leaves end m.old m.new out.old out.new done result }
    ensures returns { Returns before s.now argument.now at left m.old end task out.old done result out.new }
{
    let r = traverse(s, argument, at, left, m, end, task, out, done);
    progress::named(r, before)
}
