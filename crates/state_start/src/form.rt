// States that are formed, or none where they are over a limit ("Steps", the start state; "Judging and its count").
ghost use Rattle.std.specs.Prelude.{◌+◌, ◌≤◌, length};
ghost use Rattle.buffer.specs.Buffer.{WrittenFrom};
ghost use Rattle.state_start.specs.Form.{Finishes, Starts};
ghost use Rattle.index_process.specs.Index.{ShortModel};

use decode_layout::limit;
use state_progress::progress;
use state_progress::progress::Progress;
use state_record::state::State;
use state_task::task;
use state_task::task::Task;
use state_traversal::traverse;

// What a traversal has written, as a state with the private names that it has made; none if that is over a limit.
pub fn finish(done: Progress) -> Option<State>
    ensures { Finishes done result }
{
    if !done.going || done.names > State::NAMES {
        return None;
    }
    Some(State {
        names: done.names,
        ..done.state
    })
}

// The start state of the model that the slice s is, written into the work bytes from a position on. The bytes m are for the messages
// that are bound on the way.
pub fn start(s: &[u8], m: &mut [u8], out: &mut [u8], begin: usize) -> Option<State>
    requires { (ShortModel s.now) × (10750 ≤ length m.old) × (begin + 3964 ≤ length out.old) }
    ensures written_from { WrittenFrom 0 m.old m.new }
    ensures written_from_2 { WrittenFrom begin out.old out.new }
    ensures starts { Starts s.now begin result out.new }
{
    let fresh = progress::begin(begin, 0);
    finish(traverse::traverse(
        s,
        &task::ANY,
        0,
        limit::PROCESS_NODES,
        m,
        0,
        Task::Settle,
        out,
        fresh,
    ))
}
