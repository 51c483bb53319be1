// A thread written into the state ("Steps").
ghost use Rattle.std.specs.Prelude.{◌≤◌, ◌<◌, length};
ghost use Rattle.buffer.specs.Buffer.{WrittenFrom};
ghost use Rattle.state_progress.specs.Progress.{Extends};
ghost use Rattle.state_progress.specs.Written.{Pushes, Keeps};

use crate::progress;
use crate::progress::Progress;
use state_record::{record, state};

// The thread whose process stands at the position place, written into the state.
pub fn push(m: &[u8], end: usize, place: usize, out: &mut [u8], done: Progress) -> Progress
    requires { (end ≤ length m.now) × (place < 65536) }
    ensures extends { Extends done result }
    ensures written_from { WrittenFrom done.state.end out.old out.new }
    ensures pushes { Pushes m.now end place out.old done result out.new }
{
    let state = done.state;
    let last = state.end;
    let Some(further) = state::grow(state, record::nodes(&m[0..end]), end, out.len()) else {
        return progress::stop(done);
    };
    record::write(&m[0..end], place, out, last);
    Progress {
        going: true,
        names: done.names,
        mark: 0,
        sent: 0,
        state: further,
    }
}

// The thread at a position, written after what else is left of it, if the traversal still goes on.
pub fn keep(m: &[u8], end: usize, at: usize, out: &mut [u8], done: Progress) -> Progress
    requires { (end ≤ length m.now) × (at < 36864) }
    ensures extends { Extends done result }
    ensures written_from { WrittenFrom done.state.end out.old out.new }
    ensures keeps { Keeps m.now end at out.old done result out.new }
{
    let going = done.going;
    if going {
        return push(m, end, at, out, done);
    }
    done
}
