// Terms and recipes worked under bound messages, from the leaves up, in place ("Messages"; "Judging and its count", 255 nodes).
ghost use Rattle.std.specs.Prelude.{◌+◌, ◌*◌, ◌≤◌, ◌<◌, length};
ghost use Rattle.buffer.specs.Buffer.{Within};
ghost use Rattle.message_term.specs.Work.{Works, Reaches};
ghost use Rattle.message_term.specs.Inner.{Reduced, NodeWorked, FirstWorked, SecondWorked};

use crate::leaf;
use buffer::word;
use decode_layout::limit;
use decode_layout::term_kind::TermKind;
use message_bytes::{node, run};
use message_normal::normal;

// Where a term ends, and where its message ends. There is no such answer where a normal form of more than 255 nodes arose. Where no term
// stands, the answer is open.
#[derive(Clone, Copy)]
pub struct Worked {
    pub next: usize,
    pub end: usize,
}

// How many bytes from its start on a term may need to be worked: 512 for each of its nodes on a path.
pub const REACH: usize = 4096;

// The normal form of the message from start to end, whose parts are in normal form, the first one up to mid.
fn reduce(m: &mut [u8], start: usize, mid: usize, end: usize, next: usize) -> Option<Worked>
    requires { (start ≤ mid) × (mid ≤ end) × (end ≤ length m.old) }
    ensures within { Within start end m.old m.new }
    ensures reaches { Reaches start 1 result }
    ensures reduced { Reduced m.old start mid end next result m.new }
{
    let count = normal::normalise(&mut m[start..end], mid - start);
    if run::LENGTH < count {
        return None;
    }
    Some(Worked {
        next,
        end: start + count,
    })
}

// The term at a position with so many nodes left on its path, worked at the position start.
#[cycle(working)]
fn work(s: &[u8], at: usize, left: usize, m: &mut [u8], base: usize, start: usize) -> Option<Worked>
    requires { (base ≤ start) × (start + 512 * left ≤ length m.old) }
    ensures within { Within start (start + 512 * left) m.old m.new }
    ensures reaches { Reaches start left result }
    ensures works { Works s.now at left m.old base start result m.new }
{
    if left == 0 {
        return None;
    }
    if s.len() <= at {
        return None;
    }
    let kind = s[at];
    if kind == TermKind::Name as u8 {
        return leaf::name(s, at + 1, m, start);
    }
    if kind == TermKind::Variable as u8 {
        return leaf::variable(s, at + 1, m, base, start);
    }
    node(s, at + 1, left - 1, m, base, start, usize::from(kind))
}

// A term of a kind that has parts, which stand from the position on.
#[cycle(working)]
fn node(
    s: &[u8],
    at: usize,
    left: usize,
    m: &mut [u8],
    base: usize,
    start: usize,
    kind: usize,
) -> Option<Worked>
    requires { (base ≤ start) × (start + 512 * (left + 1) ≤ length m.old) × (kind < 256) }
    ensures within { Within start (start + 512 * (left + 1)) m.old m.new }
    ensures reaches { Reaches start 1 result }
    ensures node_worked { NodeWorked s.now at left m.old base start kind result m.new }
{
    let Worked { next, end: mid } = first(s, at, left, m, base, start, kind)?;
    rest(s, next, left, m, base, start, mid, kind)
}

// The kind of such a term, and behind it the first part.
#[cycle(working)]
fn first(
    s: &[u8],
    at: usize,
    left: usize,
    m: &mut [u8],
    base: usize,
    start: usize,
    kind: usize,
) -> Option<Worked>
    requires { (base ≤ start) × (start + 512 * (left + 1) ≤ length m.old) × (kind < 256) }
    ensures within { Within start (start + 512 * (left + 1)) m.old m.new }
    ensures reaches { Reaches (start + 2) left result }
    ensures first_worked { FirstWorked s.now at left m.old base start kind result m.new }
{
    word::write(m, start, kind);
    work(s, at, left, m, base, start + 2)
}

// The second part of such a term, if it has one, behind the first, which ends at mid; and then the whole.
#[cycle(working)]
fn rest(
    s: &[u8],
    at: usize,
    left: usize,
    m: &mut [u8],
    base: usize,
    start: usize,
    mid: usize,
    kind: usize,
) -> Option<Worked>
    requires { (start ≤ mid) × (base ≤ mid) × (mid + 512 * left ≤ length m.old) }
    ensures within { Within start (mid + 512 * left) m.old m.new }
    ensures reaches { Reaches start 1 result }
    ensures second_worked { SecondWorked s.now at left m.old base start mid kind result m.new }
{
    let last = if node::parts(kind) == 1 {
        Worked { next: at, end: mid }
    } else {
        work(s, at, left, m, base, mid)?
    };
    reduce(m, start, mid, last.end, last.next)
}

// The term at a position, worked under the messages bound at base into the bytes from start on. The bytes behind the message, as far as
// REACH from start, are left open, and so are all of these where a part is too large.
pub fn term(s: &[u8], at: usize, m: &mut [u8], base: usize, start: usize) -> Option<Worked>
    requires { (base ≤ start) × (start + 4096 ≤ length m.old) }
    ensures within { Within start (start + 4096) m.old m.new }
    ensures reaches { Reaches start 8 result }
    ensures works { Works s.now at 8 m.old base start result m.new }
{
    work(s, at, limit::TERM_NODES, m, base, start)
}
