// The head of a process: what settling comes to below every new, if and let, of which only names and messages are left ("Steps"). Nothing is
// validated again: where no process stands, the answer is open.
ghost use Rattle.std.specs.Prelude.{◌≤◌, ◌<◌, length, IfSome};
ghost use Rattle.buffer.specs.Buffer.{WrittenFrom};
ghost use Rattle.state_head.specs.Head.{Arrives, HasRoom, DescendsIf, DescendsFrom, IsPassed, Descends, Settled, RoomAtNode, BoundFits};

use decode_layout::process_kind::ProcessKind;
use message_binding::decide::Compared;
use message_binding::{bind, decide};
use message_term::work::Worked;
use state_task::place;

// How many bytes above the bound messages a traversal may need to work terms.
pub const REACH: usize = decide::REACH;

// How many bytes a traversal needs for bound messages: 12 of them, each of 512 bytes at most, and those above.
pub const BOUND: usize = 10750;

// Where a process stands, how many nodes are left on its path, where the bound messages end, and the next private name.
#[derive(Clone, Copy)]
pub struct Head {
    pub at: usize,
    pub left: usize,
    pub end: usize,
    pub names: usize,
}

// The process at a position; none where no node is left for it, or no room to work terms in so many bytes.
fn arrive(s: &[u8], at: usize, left: usize, size: usize, end: usize, names: usize) -> Option<Head>
    requires { end ≤ size }
    ensures left_le_left { IfSome result (λ h. (h.left ≤ left) × (end ≤ h.end)) }
    ensures has_room { IfSome result (HasRoom s.now size) }
    ensures arrives { Arrives s.now at left size end names result }
{
    if left == 0 {
        return None;
    }
    if s.len() <= at {
        return None;
    }
    if size - end < REACH {
        return None;
    }
    Some(Head {
        at,
        left,
        end,
        names,
    })
}

// New: the next private name is bound.
fn new(s: &[u8], at: usize, left: usize, m: &mut [u8], end: usize, names: usize) -> Option<Head>
    requires { RoomAtNode s.now at left m.old end }
    ensures left_lt_left { IfSome result (λ h. (h.left < left) × (end ≤ h.end)) }
    ensures written_from { WrittenFrom end m.old m.new }
    ensures has_room { IfSome result (HasRoom s.now (length m.new)) }
    ensures descends_if { DescendsIf 1 s.now at left m.old end names result m.new }
{
    if bind::LAST_NAME < names {
        return None;
    }
    let last = bind::name(m, end, names);
    arrive(s, at + 1, left - 1, m.len(), last, names + 1)
}

// If: the two terms are worked and compared.
fn branch(s: &[u8], at: usize, left: usize, m: &mut [u8], end: usize, names: usize) -> Option<Head>
    requires { RoomAtNode s.now at left m.old end }
    ensures left_lt_left { IfSome result (λ h. (h.left < left) × (end ≤ h.end)) }
    ensures written_from { WrittenFrom end m.old m.new }
    ensures has_room { IfSome result (HasRoom s.now (length m.new)) }
    ensures descends_if { DescendsIf 4 s.now at left m.old end names result m.new }
{
    let Compared { next, same } = decide::terms(s, at + 1, m, 0, end)?;
    arrive(
        s,
        place::chosen(s, next, same),
        left - 1,
        m.len(),
        end,
        names,
    )
}

// Let: the message of the term is bound.
fn bound(s: &[u8], at: usize, left: usize, m: &mut [u8], end: usize, names: usize) -> Option<Head>
    requires { RoomAtNode s.now at left m.old end }
    ensures left_lt_left { IfSome result (λ h. (h.left < left) × (end ≤ h.end)) }
    ensures written_from { WrittenFrom end m.old m.new }
    ensures has_room { IfSome result (HasRoom s.now (length m.new)) }
    ensures descends_if { DescendsIf 5 s.now at left m.old end names result m.new }
{
    let Worked { next, end: last } = bind::term(s, at + 1, m, 0, end)?;
    arrive(s, next, left - 1, m.len(), last, names)
}

// One node down from a head of these kinds.
fn step(s: &[u8], head: Head, m: &mut [u8]) -> Option<Head>
    requires { RoomAtNode s.now head.at head.left m.old head.end }
    ensures left_lt_left { IfSome result (λ h. (h.left < head.left) × (head.end ≤ h.end)) }
    ensures written_from { WrittenFrom head.end m.old m.new }
    ensures has_room { IfSome result (HasRoom s.now (length m.new)) }
    ensures descends_from { DescendsFrom head s.now m.old result m.new }
{
    let at = head.at;
    let left = head.left;
    let end = head.end;
    let names = head.names;
    match ProcessKind::try_from(s[at]) {
        Ok(ProcessKind::New) => new(s, at, left, m, end, names),
        Ok(ProcessKind::Let) => bound(s, at, left, m, end, names),
        _ => branch(s, at, left, m, end, names),
    }
}

// Whether the head is of these kinds.
fn passes(s: &[u8], head: Head) -> bool
    requires { head.at < length s.now }
    ensures { IsPassed s.now head result }
{
    matches!(
        ProcessKind::try_from(s[head.at]),
        Ok(ProcessKind::New | ProcessKind::If | ProcessKind::Let)
    )
}

// The head of the process at a position, with so many nodes left on its path, under the messages that are bound up to the position end, with
// the next private name; none where a limit is met.
pub fn descend(
    s: &[u8],
    at: usize,
    left: usize,
    m: &mut [u8],
    end: usize,
    names: usize,
) -> Option<Head>
    requires { BoundFits s.now m.old end }
    ensures left_le_left { IfSome result (λ h. (h.left ≤ left) × (end ≤ h.end)) }
    ensures written_from { WrittenFrom end m.old m.new }
    ensures has_room { IfSome result (HasRoom s.now (length m.new)) }
    ensures settled { IfSome result (Settled s.now) }
    ensures descends { Descends s.now at left m.old end names result m.new }
{
    let mut head = arrive(s, at, left, m.len(), end, names)?;
    while passes(s, head) {
        head = step(s, head, m)?;
    }
    Some(head)
}
