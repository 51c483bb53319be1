// Whether two terms that stand one after the other are equal ("Steps": if is decided).
ghost use Rattle.std.specs.Prelude.{◌+◌, ◌≤◌, length};
ghost use Rattle.buffer.specs.Buffer.{Within};
ghost use Rattle.message_binding.specs.Decide.{Compares, SecondCompared};

use message_bytes::run;
use message_term::work;
use message_term::work::Worked;

// Where the second term ends, and whether the two are equal. There is no such answer where a part of one of them is too large.
#[derive(Clone, Copy)]
pub struct Compared {
    pub next: usize,
    pub same: bool,
}

// How many bytes from the start on may be written: a message of 255 nodes, and what working the second term may write behind it.
pub const REACH: usize = 4606;

// The second term, worked behind the first, which stands from start to mid; then the two runs are compared.
fn second(
    s: &[u8],
    at: usize,
    m: &mut [u8],
    base: usize,
    start: usize,
    mid: usize,
) -> Option<Compared>
    requires { (base ≤ start) × (start ≤ mid) × (mid + 4096 ≤ length m.old) }
    ensures within { Within mid (mid + 4096) m.old m.new }
    ensures second_compared { SecondCompared s.now at m.old base start mid result }
{
    let Worked { next, end } = work::term(s, at, m, base, mid)?;
    Some(Compared {
        next,
        same: run::compare(&m[start..mid], &m[mid..end]),
    })
}

// Works the two terms that stand one after the other at a position, under the messages bound at base, into the bytes from start on, and
// compares them. Those bytes are left open as far as REACH.
pub fn terms(s: &[u8], at: usize, m: &mut [u8], base: usize, start: usize) -> Option<Compared>
    requires { (base ≤ start) × (start + 4606 ≤ length m.old) }
    ensures within { Within start (start + 4606) m.old m.new }
    ensures compares { Compares s.now at m.old base start result }
{
    let Worked { next, end: mid } = work::term(s, at, m, base, start)?;
    second(s, next, m, base, start, mid)
}
