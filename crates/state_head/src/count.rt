// The private names that a process takes when it is settled ("Steps"). Nothing is validated again: where no process stands, the answer is
// open.
ghost use Rattle.std.specs.Prelude.{◌≤◌, length};
ghost use Rattle.buffer.specs.Buffer.{WrittenFrom};
ghost use Rattle.state_head.specs.Count.{Fixed, Counts, CountsIf};
ghost use Rattle.state_head.specs.Head.{RoomAtNode, BoundFits};

use crate::head;
use crate::head::Head;
use decode_layout::process_kind::ProcessKind;
use index_process::index;
use message_binding::bind;

// The private name after those that the process at a position takes, if the index has their number.
pub fn fixed(s: &[u8], at: usize, names: usize) -> Option<usize>
    ensures { Fixed s.now at names result }
{
    if bind::LAST_NAME < names {
        return None;
    }
    let own = index::names(s, at)?;
    Some(names + own)
}

// The private name after those that the process at a position takes, if it is settled at the private name names, with so many nodes left on
// its path, under the messages that are bound up to the position end; none where a limit is met.
#[cycle(counting)]
pub fn count(
    s: &[u8],
    at: usize,
    left: usize,
    m: &mut [u8],
    end: usize,
    names: usize,
) -> Option<usize>
    requires { BoundFits s.now m.old end }
    ensures written_from { WrittenFrom end m.old m.new }
    ensures counts { Counts s.now at left m.old end names result }
{
    if let Some(next) = fixed(s, at, names) {
        return Some(next);
    }
    by_head(s, at, left, m, end, names)
}

// The same, by the head of the process.
#[cycle(counting)]
fn by_head(
    s: &[u8],
    at: usize,
    left: usize,
    m: &mut [u8],
    end: usize,
    names: usize,
) -> Option<usize>
    requires { BoundFits s.now m.old end }
    ensures written_from { WrittenFrom end m.old m.new }
    ensures counts { Counts s.now at left m.old end names result }
{
    let Head {
        at,
        left,
        end,
        names,
    } = head::descend(s, at, left, m, end, names)?;
    match ProcessKind::try_from(s[at]) {
        Ok(ProcessKind::Par) => both(s, at, left, m, end, names),
        _ => Some(names),
    }
}

// Par: the names of the first side, and then those of the second.
#[cycle(counting)]
fn both(s: &[u8], at: usize, left: usize, m: &mut [u8], end: usize, names: usize) -> Option<usize>
    requires { RoomAtNode s.now at left m.old end }
    ensures written_from { WrittenFrom end m.old m.new }
    ensures counts_if { CountsIf 6 s.now at left m.old end names result }
{
    let next = count(s, at + 1, left - 1, m, end, names)?;
    count(s, index::end(s, at + 1), left - 1, m, end, next)
}
