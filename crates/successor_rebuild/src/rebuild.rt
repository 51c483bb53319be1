// The threads of a state, written into the next one ("Steps"): those that act as their tasks leave them, the others as they are.
ghost use Rattle.std.specs.Prelude.{◌+◌, ◌≤◌, length};
ghost use Rattle.buffer.specs.Buffer.{WrittenFrom};
ghost use Rattle.state_progress.specs.Progress.{Extends};
ghost use Rattle.successor_rebuild.specs.Rebuild.{Renews, Rebuilds, Resumes};
ghost use Rattle.index_process.specs.Index.{ShortModel};
ghost use Rattle.state_layout.specs.Layout.{RecordFits};

use crate::block;
use buffer::word;
use state_progress::progress::Progress;
use state_start::loaded;
use state_task::task::Task;

// A thread that acts, whose record stands at a position.
fn act(
    s: &[u8],
    argument: &[u8],
    at: usize,
    m: &mut [u8],
    first: usize,
    task: Task,
    second: usize,
    other: Task,
    out: &mut [u8],
    done: Progress,
) -> Progress
    requires { RecordFits s.now out.old at }
    ensures extends { Extends done result }
    ensures written_from { WrittenFrom 0 m.old m.new }
    ensures written_from_2 { WrittenFrom done.state.end out.old out.new }
    ensures renews { Renews s.now argument.now at m.old first task second other out.old done result out.new }
{
    if at == first {
        return loaded::traverse(s, argument, at, m, task, out, done);
    }
    loaded::traverse(s, argument, at, m, other, out, done)
}

// The threads whose records stand from a position to another: a task is done at the record at the position first, another one at the
// position second. First come those that do not act.
#[cycle(rebuilding)]
pub fn rebuild(
    s: &[u8],
    argument: &[u8],
    at: usize,
    to: usize,
    m: &mut [u8],
    first: usize,
    task: Task,
    second: usize,
    other: Task,
    out: &mut [u8],
    done: Progress,
) -> Progress
    requires { (to ≤ length out.old) × (ShortModel s.now) }
    ensures extends { Extends done result }
    ensures written_from { WrittenFrom 0 m.old m.new }
    ensures written_from_2 { WrittenFrom done.state.end out.old out.new }
    ensures rebuilds { Rebuilds s.now argument.now at to m.old first task second other out.old done result out.new }
{
    let going = done.going;
    if !going {
        return done;
    }
    if to <= at {
        return done;
    }
    let still = block::measure(out, at, to, first, second);
    let r = block::keep(out, at, still, done);
    rest(
        s, argument, still.end, to, m, first, task, second, other, out, r,
    )
}

// The same where the first of them acts, if there is one.
#[cycle(rebuilding)]
fn rest(
    s: &[u8],
    argument: &[u8],
    at: usize,
    to: usize,
    m: &mut [u8],
    first: usize,
    task: Task,
    second: usize,
    other: Task,
    out: &mut [u8],
    done: Progress,
) -> Progress
    requires { (at ≤ to) × (to ≤ length out.old) × (ShortModel s.now) }
    ensures extends { Extends done result }
    ensures written_from { WrittenFrom 0 m.old m.new }
    ensures written_from_2 { WrittenFrom done.state.end out.old out.new }
    ensures resumes { Resumes s.now argument.now at to m.old first task second other out.old done result out.new }
{
    let going = done.going;
    if !going {
        return done;
    }
    if to - at < 4 {
        return done;
    }
    let next = at + 4 + word::number(out, at + 2);
    let r = act(s, argument, at, m, first, task, second, other, out, done);
    rebuild(s, argument, next, to, m, first, task, second, other, out, r)
}
