// Which copies of a repl thread a task opens, and what is done with the thread itself ("Steps"): decided before the traversal goes into them.
ghost use Rattle.std.specs.Prelude.{◌≡◌, Bool, ◌≤◌, ◌<◌, length};
ghost use Rattle.buffer.specs.Buffer.{WrittenFrom};
ghost use Rattle.state_progress.specs.Progress.{Extends};
ghost use Rattle.state_task.specs.Copies.{within, judging, seeking, target, seeking_in, passes, finding, taken, builder, rebuilt, building_in};
ghost use Rattle.state_replication.specs.Decided.{Decided};
ghost use Rattle.state_task.specs.Copies.{copies_at};
ghost use Rattle.state_replication.specs.Decided.{Begins, Finishes};

use state_progress::progress::Progress;
use state_progress::{progress, written};
use state_task::opening::{Copies, Opening, Own};
use state_task::task::{CopyAt, Plan, Quest, Task};
use state_task::{place, task};

// A copy of the repl thread at a position, if it has the position of a mark in it.
fn within(s: &[u8], at: usize, mark: usize, opening: Opening) -> Opening
    requires { at < 36864 }
    ensures { Decided Opening s.now at (within mark opening at) result }
{
    if place::contains(s, at + 1, mark) {
        return opening;
    }
    Opening::None
}

// A copy that is judged, opened at a private name.
fn judge(own: Own, names: usize) -> Copies
    ensures { result ≡ judging own names }
{
    Copies {
        own,
        first: Opening::Copy(Task::Judge(names), names),
        second: Opening::None,
    }
}

// An offer of a copy, if the repl thread does not have the mark in it.
fn seek(s: &[u8], at: usize, quest: Quest, opens: usize) -> Opening
    requires { at < 36864 }
    ensures { Decided Opening s.now at (seeking quest opens at) result }
{
    let excluded = quest.excluded;
    if place::contains(s, at + 1, excluded) {
        return Opening::None;
    }
    Opening::Copy(Task::Seek(quest, opens), opens)
}

// An offer in the first copy of the repl thread that is meant, in the same copy once more, or in a second one.
fn target(quest: Quest, copies: CopyAt, opens: usize) -> Opening
    ensures { result ≡ target quest copies opens }
{
    let arity = copies.arity;
    let second = copies.second;
    if arity == 0 {
        return Opening::Copy(Task::Seek(quest, opens), opens);
    }
    if arity == 1 {
        return Opening::Again(Task::Seek(quest, second), opens);
    }
    Opening::Copy(Task::Seek(quest, opens), second)
}

// The same, there or on the way to it.
fn seek_in(s: &[u8], at: usize, quest: Quest, copies: CopyAt, opens: usize) -> Opening
    requires { at < 36864 }
    ensures { Decided Opening s.now at (seeking_in quest copies opens at) result }
{
    let mark = copies.place;
    if at + 1 == mark {
        return target(quest, copies, opens);
    }
    within(
        s,
        at,
        mark,
        Opening::Copy(Task::SeekIn(quest, copies, opens), opens),
    )
}

// Whether neither the repl thread at a position nor one in its copy comes after a mark, or is the one at it.
fn passes(s: &[u8], at: usize, mark: usize, past: bool) -> bool
    requires { at < 36864 }
    ensures { Decided Bool s.now at (passes mark past at) result }
{
    if at + 1 == mark {
        return past;
    }
    at + 1 < mark && !place::contains(s, at + 1, mark)
}

// The next repl thread after a mark, or the one at it: those in its copy first, and then itself.
fn find(s: &[u8], at: usize, mark: usize, past: bool, opens: usize) -> Copies
    requires { at < 36864 }
    ensures { Decided Copies s.now at (finding mark past opens at) result }
{
    if passes(s, at, mark, past) {
        return Copies {
            own: Own::Passed,
            first: Opening::None,
            second: Opening::None,
        };
    }
    if at + 1 == mark {
        return Copies {
            own: Own::Found(opens),
            first: Opening::None,
            second: Opening::None,
        };
    }
    Copies {
        own: Own::Found(opens),
        first: Opening::Copy(Task::Find(mark, past, opens), opens),
        second: Opening::None,
    }
}

// What is left of the copy that has the taker in it, and not the sender.
fn taken(plan: Plan, opens: usize) -> Opening
    ensures { result ≡ taken plan opens }
{
    let sender = plan.sender;
    let second = plan.second;
    if sender == 0 {
        return Opening::Copy(Task::Build(plan, opens), opens);
    }
    Opening::Copy(Task::Build(task::taking(plan), opens), second)
}

// What is left of the copy that has the sender or the taker in it.
fn build(s: &[u8], at: usize, plan: Plan, opens: usize) -> Opening
    requires { at < 36864 }
    ensures { Decided Opening s.now at (builder plan opens at) result }
{
    let sender = plan.sender;
    let taker = plan.taker;
    if place::contains(s, at + 1, sender) {
        return Opening::Copy(Task::Build(plan, opens), opens);
    }
    within(s, at, taker, taken(plan, opens))
}

// What is left of the copies of the repl thread that is meant: of the one that sent and then of the one that took, or of the only one.
fn rebuilt(plan: Plan, copies: CopyAt, opens: usize) -> Copies
    ensures { result ≡ rebuilt plan copies opens }
{
    let arity = copies.arity;
    let second = copies.second;
    if arity == 2 {
        return Copies {
            own: Own::After,
            first: Opening::Copy(Task::Build(task::sending(plan), opens), opens),
            second: Opening::Copy(Task::Build(task::taking(plan), opens), second),
        };
    }
    Copies {
        own: Own::After,
        first: Opening::Copy(Task::Build(plan, opens), opens),
        second: Opening::None,
    }
}

// The same, there or on the way to it.
fn build_in(s: &[u8], at: usize, plan: Plan, copies: CopyAt, opens: usize) -> Copies
    requires { at < 36864 }
    ensures { Decided Copies s.now at (building_in plan copies opens at) result }
{
    let mark = copies.place;
    if at + 1 == mark {
        return rebuilt(plan, copies, opens);
    }
    Copies {
        own: Own::After,
        first: within(
            s,
            at,
            mark,
            Opening::Copy(Task::BuildIn(plan, copies, opens), opens),
        ),
        second: Opening::None,
    }
}

// What a task does at the repl thread at a position, if names is the next private name.
pub fn needed(s: &[u8], at: usize, task: Task, names: usize) -> Copies
    requires { at < 36864 }
    ensures { Decided Copies s.now at (copies_at task at names) result }
{
    match task {
        Task::Count => Copies {
            own: Own::Passed,
            first: Opening::None,
            second: Opening::None,
        },
        Task::Judge(opens) => judge(Own::Passed, opens),
        Task::Settle => judge(Own::Before, names),
        Task::Seek(quest, opens) => Copies {
            own: Own::Passed,
            first: seek(s, at, quest, opens),
            second: Opening::None,
        },
        Task::SeekIn(quest, copies, opens) => Copies {
            own: Own::Passed,
            first: seek_in(s, at, quest, copies, opens),
            second: Opening::None,
        },
        Task::Find(mark, past, opens) => find(s, at, mark, past, opens),
        Task::Build(plan, opens) => Copies {
            own: Own::After,
            first: build(s, at, plan, opens),
            second: Opening::None,
        },
        Task::BuildIn(plan, copies, opens) => build_in(s, at, plan, copies, opens),
    }
}

// The repl thread itself, before its copies are opened.
pub fn begin(m: &[u8], end: usize, at: usize, own: Own, out: &mut [u8], done: Progress) -> Progress
    requires { (end ≤ length m.now) × (at < 36864) }
    ensures extends { Extends done result }
    ensures written_from { WrittenFrom done.state.end out.old out.new }
    ensures begins { Begins own m.now end at out.old done result out.new }
{
    match own {
        Own::Passed => done,
        Own::Before => written::push(m, end, at, out, done),
        Own::After => done,
        Own::Found(_) => done,
    }
}

// The repl thread itself, after what is done in its copies, if the traversal still goes on.
pub fn finish(m: &[u8], end: usize, at: usize, own: Own, out: &mut [u8], done: Progress) -> Progress
    requires { (end ≤ length m.now) × (at < 36864) }
    ensures extends { Extends done result }
    ensures written_from { WrittenFrom done.state.end out.old out.new }
    ensures finishes { Finishes own m.now end at out.old done result out.new }
{
    let going = done.going;
    match own {
        Own::Passed => done,
        Own::Before => done,
        Own::After => written::keep(m, end, at, out, done),
        Own::Found(opens) => {
            if going {
                return progress::hit(done, at, opens);
            }
            done
        }
    }
}
