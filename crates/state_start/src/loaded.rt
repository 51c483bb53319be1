// A traversal of a thread of a state that stands in the work bytes ("Steps").
ghost use Rattle.std.specs.Prelude.{◌+◌, ◌≤◌, length};
ghost use Rattle.buffer.specs.Buffer.{WrittenFrom};
ghost use Rattle.state_progress.specs.Progress.{Extends};
ghost use Rattle.state_layout.specs.Loaded.{TraversesThread};
ghost use Rattle.state_progress.specs.Progress.{Begins};
ghost use Rattle.state_layout.specs.Layout.{RecordFits};

use decode_layout::limit;
use state_build::build;
use state_progress::progress::Progress;
use state_record::stored;
use state_task::task::Task;
use state_traversal::traverse;

// The most process nodes on one path.
const NODES: usize = limit::PROCESS_NODES;

// The traversal of the thread whose record stands at a position.
pub fn traverse(
    s: &[u8],
    argument: &[u8],
    at: usize,
    m: &mut [u8],
    task: Task,
    out: &mut [u8],
    done: Progress,
) -> Progress
    requires { RecordFits s.now out.old at }
    ensures extends { Extends done result }
    ensures written_from { WrittenFrom 0 m.old m.new }
    ensures written_from_2 { WrittenFrom done.state.end out.old out.new }
    ensures traverses_thread { TraversesThread s.now argument.now at m.old task out.old done result out.new }
{
    let t = stored::load(out, at, m);
    if let Task::Build(plan, opens) = task {
        return build::build(
            s, argument, t.place, NODES, m, t.end, plan, opens, out, done,
        );
    }
    traverse::traverse(s, argument, t.place, NODES, m, t.end, task, out, done)
}
