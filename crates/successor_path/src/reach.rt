// The way from a thread's process down to the process at a mark, under the messages that are bound there ("Steps"). A mark is a position
// and one more. Nothing is validated again: where no process stands, or a limit is met on the way, the answer is open.
ghost use Rattle.std.specs.Prelude.{◌≡◌, ◌+◌, ◌≤◌, ◌<◌, length};
ghost use Rattle.buffer.specs.Buffer.{WrittenFrom};
ghost use Rattle.successor_path.specs.Reach.{Reaches, LeadsPast, LeadsPastIf, LeadsPastAny, NewLeadsPast, IfLeadsPast, Goes};
ghost use Rattle.state_head.specs.Head.{RoomAtNode};
ghost use Rattle.index_process.specs.Index.{ShortModel};

use crate::count;
use decode_layout::ends;
use decode_layout::process_kind::ProcessKind;
use index_process::index;
use message_binding::bind;
use message_term::work::Worked;
use state_head::head;
use state_task::place;

// What a way has come to: where a process stands, how many nodes are left on a path there, where the bound messages end, the private name
// at which it is settled, and the one at which its copies open. No node is left where the mark was not found.
#[derive(Clone, Copy)]
pub struct Way {
    pub at: usize,
    pub left: usize,
    pub end: usize,
    pub names: usize,
    pub opens: usize,
}

// The mark was not found.
fn nowhere(end: usize) -> Way
    ensures { (result.left ≡ 0) × (result.end ≡ end) }
{
    Way {
        at: 0,
        left: 0,
        end,
        names: 0,
        opens: 0,
    }
}

// New: the next private name is bound.
fn new(way: Way, m: &mut [u8]) -> Way
    requires { (1 ≤ way.left) × (way.at < 36864) × (way.end + 4606 ≤ length m.old) }
    ensures left_lt_left { (result.left < way.left) × (way.end ≤ result.end) × (result.end ≤ length m.new) }
    ensures written_from { WrittenFrom way.end m.old m.new }
    ensures new_leads_past { NewLeadsPast m.old way result m.new }
{
    let end = way.end;
    let names = way.names;
    if bind::LAST_NAME < names {
        return nowhere(end);
    }
    let last = bind::name(m, end, names);
    Way {
        at: way.at + 1,
        left: way.left - 1,
        end: last,
        names: names + 1,
        opens: way.opens,
    }
}

// If: the branch that has the mark in it.
fn branch(s: &[u8], way: Way, mark: usize) -> Way
    requires { (1 ≤ way.left) × (way.at < length s.now) × (ShortModel s.now) }
    ensures left_lt_left { (result.left < way.left) × (result.end ≡ way.end) }
    ensures if_leads_past { IfLeadsPast s.now way mark result }
{
    let first = ends::terms(s, way.at + 1, 2);
    if place::contains(s, first, mark) {
        return Way {
            at: first,
            left: way.left - 1,
            ..way
        };
    }
    Way {
        at: index::end(s, first),
        left: way.left - 1,
        ..way
    }
}

// Let: the message of the term is bound.
fn bound(s: &[u8], way: Way, m: &mut [u8]) -> Way
    requires { RoomAtNode s.now way.at way.left m.old way.end }
    ensures left_lt_left { (result.left < way.left) × (way.end ≤ result.end) × (result.end ≤ length m.new) }
    ensures written_from { WrittenFrom way.end m.old m.new }
    ensures leads_past_any { LeadsPastAny 5 s.now m.old way result m.new }
{
    let end = way.end;
    let Some(Worked { next, end: last }) = bind::term(s, way.at + 1, m, 0, end) else {
        return nowhere(end);
    };
    Way {
        at: next,
        left: way.left - 1,
        end: last,
        names: way.names,
        opens: way.opens,
    }
}

// Par: the side that has the mark in it. The second is settled after the names of the first.
fn side(s: &[u8], way: Way, m: &mut [u8], mark: usize) -> Way
    requires { RoomAtNode s.now way.at way.left m.old way.end }
    ensures left_lt_left { (result.left < way.left) × (way.end ≤ result.end) × (result.end ≤ length m.new) }
    ensures written_from { WrittenFrom way.end m.old m.new }
    ensures leads_past_if { LeadsPastIf 6 s.now m.old way mark result m.new }
{
    let at = way.at + 1;
    let left = way.left - 1;
    let end = way.end;
    let names = way.names;
    if place::contains(s, at, mark) {
        return Way {
            at,
            left,
            end,
            names,
            opens: way.opens,
        };
    }
    let later = count::taken(s, at, left, m, end, names);
    Way {
        at: index::end(s, at),
        left,
        end,
        names: later,
        opens: way.opens,
    }
}

// Repl: the copy, opened at a private name. Copies inside it open after its names.
fn copy(s: &[u8], way: Way, m: &mut [u8]) -> Way
    requires { RoomAtNode s.now way.at way.left m.old way.end }
    ensures left_lt_left { (result.left < way.left) × (way.end ≤ result.end) × (result.end ≤ length m.new) }
    ensures written_from { WrittenFrom way.end m.old m.new }
    ensures leads_past_any { LeadsPastAny 7 s.now m.old way result m.new }
{
    let at = way.at + 1;
    let left = way.left - 1;
    let end = way.end;
    let opens = way.opens;
    let later = count::taken(s, at, left, m, end, opens);
    Way {
        at,
        left,
        end,
        names: opens,
        opens: later,
    }
}

// One node down from a process that is not the one at the mark, by its kind.
fn below(s: &[u8], way: Way, m: &mut [u8], mark: usize) -> Way
    requires { RoomAtNode s.now way.at way.left m.old way.end }
    ensures left_lt_left { (result.left < way.left) × (way.end ≤ result.end) × (result.end ≤ length m.new) }
    ensures written_from { WrittenFrom way.end m.old m.new }
    ensures leads_past { LeadsPast s.now m.old way mark result m.new }
{
    match ProcessKind::try_from(s[way.at]) {
        Ok(ProcessKind::New) => new(way, m),
        Ok(ProcessKind::If) => branch(s, way, mark),
        Ok(ProcessKind::Let) => bound(s, way, m),
        Ok(ProcessKind::Par) => side(s, way, m, mark),
        Ok(ProcessKind::Repl) => copy(s, way, m),
        _ => nowhere(way.end),
    }
}

// The same, if a process stands there, with room to work terms.
fn step(s: &[u8], way: Way, m: &mut [u8], mark: usize) -> Way
    requires { (1 ≤ way.left) × (way.end ≤ length m.old) × (ShortModel s.now) }
    ensures left_lt_left { (result.left < way.left) × (way.end ≤ result.end) × (result.end ≤ length m.new) }
    ensures written_from { WrittenFrom way.end m.old m.new }
    ensures leads_past { LeadsPast s.now m.old way mark result m.new }
{
    let end = way.end;
    if s.len() <= way.at {
        return nowhere(end);
    }
    if m.len() - end < head::REACH {
        return nowhere(end);
    }
    below(s, way, m, mark)
}

// Whether a way goes on: not where it has ended, nor where the mark is.
fn goes(s: &[u8], way: Way, mark: usize) -> bool
    ensures { Goes s.now way mark result }
{
    way.left != 0 && (s.len() <= way.at || way.at + 1 != mark)
}

// From what a way has come to down to the process at the mark.
pub fn reach(s: &[u8], way: Way, m: &mut [u8], mark: usize) -> Way
    requires { (way.end ≤ length m.old) × (ShortModel s.now) }
    ensures end_in_bounds { result.end ≤ length m.new }
    ensures written_from { WrittenFrom way.end m.old m.new }
    ensures reaches { Reaches s.now m.old way mark result m.new }
{
    let mut on = way;
    while goes(s, on, mark) {
        on = step(s, on, m, mark);
    }
    on
}
