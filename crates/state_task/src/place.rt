// Positions in a process: the branch of an if, what follows a thread, whether a mark is in it ("Steps").
ghost use Rattle.std.specs.Prelude.{◌<◌, length};
ghost use Rattle.state_task.specs.Place.{Chosen, Contains, Rests};

use decode_layout::ends;
use decode_layout::process_kind::ProcessKind;
use index_process::index;

// The branch that an if takes: the first process behind its terms, or the second.
pub fn chosen(s: &[u8], at: usize, same: bool) -> usize
    ensures { Chosen s.now at same result }
{
    if same {
        return at;
    }
    index::end(s, at)
}

// Whether the process at a position has the position of a mark in it.
pub fn contains(s: &[u8], at: usize, mark: usize) -> bool
    ensures { Contains s.now at mark result }
{
    at < mark && mark <= index::end(s, at)
}

// Where the process stands that follows the thread at a position.
pub fn rest(s: &[u8], at: usize) -> usize
    requires { at < length s.now }
    ensures { Rests s.now at result }
{
    match ProcessKind::try_from(s[at]) {
        Ok(ProcessKind::Output) => ends::terms(s, at + 1, 2),
        _ => ends::terms(s, at + 1, 1),
    }
}
