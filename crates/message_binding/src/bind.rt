// Binding one message more, after those that are bound ("Steps": new binds a private name, input and let a message).
ghost use Rattle.std.specs.Prelude.{◌≡◌, ◌+◌, ◌≤◌, length};
ghost use Rattle.meaning.specs.Messages.Term.{leaf, private};
ghost use Rattle.buffer.specs.Buffer.{Within};
ghost use Rattle.message_term.specs.Bound.{Binds, BindsRun};
ghost use Rattle.message_term.specs.Work.{BindWorked, Reaches};

use buffer::{slice, word};
use message_term::work;
use message_term::work::Worked;

// The largest private name that two bytes can hold, and how many bytes from the end of the bound messages on `term` may write.
pub const LAST_NAME: usize = 32759;

pub const REACH: usize = 4098;

// Binds the private name n after the messages whose entries end at the position end; the answer is where they end then.
pub fn name(m: &mut [u8], end: usize, n: usize) -> usize
    requires { (end + 4 ≤ length m.old) × (n ≤ 32759) }
    ensures value { result ≡ end + 4 }
    ensures within { Within end (end + 4) m.old m.new }
    ensures binds { Binds m.old end (leaf (private n)) result m.new }
{
    word::write(m, end, 1);
    word::write(m, end + 2, 2 * n + 17);
    end + 4
}

// Binds the message that the slice x is, a part of another buffer, after the messages whose entries end at the position end; the answer
// is where they end then.
pub fn message(x: &[u8], m: &mut [u8], end: usize) -> usize
    requires { (end + 2 + length x.now ≤ length m.old) × (length x.now ≤ 510) }
    ensures value { result ≡ end + 2 + length x.now }
    ensures within { Within end (end + 2 + length x.now) m.old m.new }
    ensures binds_run { BindsRun x.now m.old end result m.new }
{
    word::write(m, end, x.len() / 2);
    slice::put(x, m, end + 2);
    end + 2 + x.len()
}

// Works the term at a position under the messages bound at base, and binds its message after whatever messages' entries end at the
// position end, the same or others. The answer is that of `work::term`; the bytes behind the message are left open.
pub fn term(s: &[u8], at: usize, m: &mut [u8], base: usize, end: usize) -> Option<Worked>
    requires { (base ≤ end) × (end + 4098 ≤ length m.old) }
    ensures within { Within end (end + 4098) m.old m.new }
    ensures reaches { Reaches (end + 2) 8 result }
    ensures bind_worked { BindWorked s.now at m.old base end result m.new }
{
    let worked = work::term(s, at, m, base, end + 2)?;
    word::write(m, end, (worked.end - end - 2) / 2);
    Some(worked)
}
