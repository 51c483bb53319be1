// The leaves of a term: public names, and variables or aliases with their bound messages ("Messages").
ghost use Rattle.std.specs.Prelude.{◌+◌, ◌≤◌, length};
ghost use Rattle.buffer.specs.Buffer.{Within};
ghost use Rattle.message_term.specs.Work.{Reaches};
ghost use Rattle.message_term.specs.Inner.{NameWorked, VariableWorked};

use crate::work::Worked;
use crate::{bound, field};
use buffer::word;
use decode_number::number::Decoding;
use message_bytes::run;

// A public name.
pub(crate) fn name(s: &[u8], at: usize, m: &mut [u8], start: usize) -> Option<Worked>
    requires { start + 2 ≤ length m.old }
    ensures within { Within start (start + 2) m.old m.new }
    ensures reaches { Reaches start 1 result }
    ensures name_worked { NameWorked s.now at start result m.new }
{
    let Decoding {
        value: number,
        end: next,
    } = field::read(s, at);
    word::write(m, start, 2 * number + 16);
    Some(Worked {
        next,
        end: start + 2,
    })
}

// A variable or an alias: a copy of its message.
pub(crate) fn variable(
    s: &[u8],
    at: usize,
    m: &mut [u8],
    base: usize,
    start: usize,
) -> Option<Worked>
    requires { (base ≤ start) × (start + 510 ≤ length m.old) }
    ensures within { Within start (start + 510) m.old m.new }
    ensures reaches { Reaches start 1 result }
    ensures variable_worked { VariableWorked s.now at m.old base start result m.new }
{
    let Decoding {
        value: number,
        end: next,
    } = field::read(s, at);
    let part = bound::find(&m[base..start], number);
    let count = part.end - part.start;
    if run::LENGTH < count {
        return None;
    }
    m.copy_within(base + part.start..base + part.end, start);
    Some(Worked {
        next,
        end: start + count,
    })
}
