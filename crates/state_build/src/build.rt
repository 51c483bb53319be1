// The traversal of a process that writes its threads as a step leaves them ("Steps"): the traversal of that one task, which goes on with the plan of
// the step alone. Nothing is validated again: where no process stands, the answer is open.
ghost use Rattle.std.specs.Prelude.{◌≤◌, ◌<◌, length};
ghost use Rattle.buffer.specs.Buffer.{WrittenFrom};
ghost use Rattle.state_progress.specs.Progress.{Extends};
ghost use Rattle.state_task.specs.declared.task.Task.TheVariants.{Build};
ghost use Rattle.state_head.specs.Traverse.{Leaves, Traverses, HeadTraverses, TraversesIf, Opens, Returns};
ghost use Rattle.state_build.specs.Build.{OpensBuilt};
ghost use Rattle.state_head.specs.Head.{RoomAtNode, BoundFits};
ghost use Rattle.index_process.specs.Index.{ShortModel};

use decode_layout::process_kind::ProcessKind;
use index_process::index;
use state_head::head::Head;
use state_head::{count, head};
use state_progress::progress::Progress;
use state_progress::{progress, written};
use state_task::task::Plan;
use state_task::{place, task};
use state_traversal::traverse;

// The process at a position, with so many nodes left on its path, under the messages that are bound up to the position end. Copies open at
// the private name opens.
#[cycle(building)]
pub fn build(
    s: &[u8],
    argument: &[u8],
    at: usize,
    left: usize,
    m: &mut [u8],
    end: usize,
    plan: Plan,
    opens: usize,
    out: &mut [u8],
    done: Progress,
) -> Progress
    requires { BoundFits s.now m.old end }
    ensures extends { Extends done result }
    ensures written_from { WrittenFrom end m.old m.new }
    ensures written_from_2 { WrittenFrom done.state.end out.old out.new }
    ensures traverses { Traverses s.now argument.now at left m.old end (Build plan opens) out.old done result out.new }
{
    let going = done.going;
    if !going {
        return done;
    }
    let names = done.names;
    let Some(head) = head::descend(s, at, left, m, end, names) else {
        return progress::stop(done);
    };
    node(s, argument, head, m, plan, opens, out, done)
}

// The same at the head of a process, where a node is left for it, and room to work terms.
#[cycle(building)]
fn node(
    s: &[u8],
    argument: &[u8],
    head: Head,
    m: &mut [u8],
    plan: Plan,
    opens: usize,
    out: &mut [u8],
    done: Progress,
) -> Progress
    requires { RoomAtNode s.now head.at head.left m.old head.end }
    ensures leaves { Leaves head.end m.old m.new out.old out.new done result }
    ensures head_traverses { HeadTraverses s.now argument.now head m.old (Build plan opens) out.old done result out.new }
{
    let at = head.at;
    let left = head.left;
    let end = head.end;
    let names = head.names;
    let done = progress::named(done, names);
    let kind = s[at];
    if kind == ProcessKind::Nil as u8 {
        return done;
    }
    if kind == ProcessKind::Par as u8 {
        return both(s, argument, at, left, m, end, plan, opens, out, done);
    }
    if kind == ProcessKind::Repl as u8 {
        return repl(s, argument, at, left, m, end, plan, opens, out, done);
    }
    traverse::act(s, argument, at, left, m, end, plan, out, done)
}

// Par: the first side, and then the second.
#[cycle(building)]
fn both(
    s: &[u8],
    argument: &[u8],
    at: usize,
    left: usize,
    m: &mut [u8],
    end: usize,
    plan: Plan,
    opens: usize,
    out: &mut [u8],
    done: Progress,
) -> Progress
    requires { RoomAtNode s.now at left m.old end }
    ensures leaves { Leaves end m.old m.new out.old out.new done result }
    ensures traverses_if { TraversesIf 6 s.now argument.now at left m.old end (Build plan opens) out.old done result out.new }
{
    let first = build(
        s,
        argument,
        at + 1,
        left - 1,
        m,
        end,
        plan,
        opens,
        out,
        done,
    );
    build(
        s,
        argument,
        index::end(s, at + 1),
        left - 1,
        m,
        end,
        plan,
        opens,
        out,
        first,
    )
}

// Repl: what is left of its copy, and then the thread itself.
#[cycle(building)]
fn repl(
    s: &[u8],
    argument: &[u8],
    at: usize,
    left: usize,
    m: &mut [u8],
    end: usize,
    plan: Plan,
    opens: usize,
    out: &mut [u8],
    done: Progress,
) -> Progress
    requires { RoomAtNode s.now at left m.old end }
    ensures leaves { Leaves end m.old m.new out.old out.new done result }
    ensures traverses_if { TraversesIf 7 s.now argument.now at left m.old end (Build plan opens) out.old done result out.new }
{
    let opened = enter(s, argument, at, left, m, end, plan, opens, out, done);
    written::keep(m, end, at, out, opened)
}

// What is left of the copy that has the sender or the taker in it, if there is one. The one that has the taker alone in it opens after the
// sender's, if there is a sender.
#[cycle(building)]
fn enter(
    s: &[u8],
    argument: &[u8],
    at: usize,
    left: usize,
    m: &mut [u8],
    end: usize,
    plan: Plan,
    opens: usize,
    out: &mut [u8],
    done: Progress,
) -> Progress
    requires { (1 ≤ left) × (at < length s.now) × (end ≤ length m.old) × (ShortModel s.now) }
    ensures leaves { Leaves end m.old m.new out.old out.new done result }
    ensures opens_built { OpensBuilt plan opens s.now argument.now at left m.old end out.old done result out.new }
{
    let sender = plan.sender;
    let taker = plan.taker;
    let second = plan.second;
    if place::contains(s, at + 1, sender) {
        return copy(s, argument, at, left, m, end, plan, opens, opens, out, done);
    }
    if place::contains(s, at + 1, taker) {
        if sender == 0 {
            return copy(s, argument, at, left, m, end, plan, opens, opens, out, done);
        }
        let taking = task::taking(plan);
        return copy(
            s, argument, at, left, m, end, taking, opens, second, out, done,
        );
    }
    done
}

// A copy of the repl thread at a position, opened at the private name start: its names are counted, since copies inside it open after them,
// and then its threads are written. The names are given back.
#[cycle(building)]
fn copy(
    s: &[u8],
    argument: &[u8],
    at: usize,
    left: usize,
    m: &mut [u8],
    end: usize,
    plan: Plan,
    opens: usize,
    start: usize,
    out: &mut [u8],
    done: Progress,
) -> Progress
    requires { (1 ≤ left) × (at < length s.now) × (end ≤ length m.old) × (ShortModel s.now) }
    ensures leaves { Leaves end m.old m.new out.old out.new done result }
    ensures opens { Opens (Build plan opens) start s.now argument.now at left m.old end out.old done result out.new }
{
    let before = done.names;
    let Some(inner) = count::count(s, at + 1, left - 1, m, end, start) else {
        return progress::stop(done);
    };
    inside(
        s,
        argument,
        at + 1,
        left - 1,
        m,
        end,
        plan,
        inner,
        out,
        progress::named(done, start),
        before,
    )
}

// The traversal of a process, after which the next private name is the one from before.
#[cycle(building)]
fn inside(
    s: &[u8],
    argument: &[u8],
    at: usize,
    left: usize,
    m: &mut [u8],
    end: usize,
    plan: Plan,
    opens: usize,
    out: &mut [u8],
    done: Progress,
    before: usize,
) -> Progress
    requires { BoundFits s.now m.old end }
    ensures leaves { Leaves end m.old m.new out.old out.new done result }
    ensures returns { Returns before s.now argument.now at left m.old end (Build plan opens) out.old done result out.new }
{
    progress::named(
        build(s, argument, at, left, m, end, plan, opens, out, done),
        before,
    )
}
