// The private names that a process takes, and those of what follows an offer ("Steps"). Nothing is validated again: where no process stands,
// the answer is open.
ghost use Rattle.std.specs.Prelude.{◌≤◌, length};
ghost use Rattle.buffer.specs.Buffer.{WrittenFrom};
ghost use Rattle.successor_path.specs.Reach.{Takes, CountsRest};
ghost use Rattle.state_head.specs.Head.{BoundFits};

use decode_layout::process_kind::ProcessKind;
use message_binding::bind;
use message_bytes::run;
use state_head::{count, head};
use state_task::place;

// The private name after those that the process at a position takes, if it is settled at the private name names and meets no limit.
pub fn taken(s: &[u8], at: usize, left: usize, m: &mut [u8], end: usize, names: usize) -> usize
    requires { BoundFits s.now m.old end }
    ensures written_from { WrittenFrom end m.old m.new }
    ensures takes { Takes s.now at left m.old end names result }
{
    count::count(s, at, left, m, end, names).unwrap_or(names)
}

// The private names of what follows the output or the input at a position, settled at the private name names, under the message of the label
// too if it is an input; none where a limit is met.
pub fn rest(
    s: &[u8],
    argument: &[u8],
    at: usize,
    left: usize,
    m: &mut [u8],
    end: usize,
    names: usize,
) -> Option<usize>
    requires { BoundFits s.now m.old end }
    ensures written_from { WrittenFrom end m.old m.new }
    ensures counts_rest { CountsRest s.now argument.now at left m.old end names result }
{
    if left == 0 {
        return None;
    }
    if s.len() <= at {
        return None;
    }
    if m.len() - end < head::REACH {
        return None;
    }
    let next = place::rest(s, at);
    if matches!(ProcessKind::try_from(s[at]), Ok(ProcessKind::Output)) {
        return count::count(s, next, left - 1, m, end, names);
    }
    if run::LENGTH < argument.len() {
        return None;
    }
    let last = bind::message(argument, m, end);
    count::count(s, next, left - 1, m, last, names)
}
