// A recipe worked at a state, under the messages of its aliases ("Steps"; "Judging and its count", 255 nodes).
ghost use Rattle.std.specs.Prelude.{◌+◌, ◌≤◌, length};
ghost use Rattle.buffer.specs.Buffer.{Within, SameLength};
ghost use Rattle.message_term.specs.Work.{Reaches};
ghost use Rattle.truth_label.specs.Recipe.{Recipes};

use buffer::slice;
use message_term::work;
use message_term::work::Worked;

// The recipe at a position, worked under the messages that are bound at base, in the work bytes from start on. Its message is then copied to
// the front of a slice: the answer says where the recipe ends, and where the message ends in that slice.
pub(crate) fn recipe(
    f: &[u8],
    at: usize,
    base: usize,
    start: usize,
    out: &mut [u8],
    message: &mut [u8],
) -> Option<Worked>
    requires { (base ≤ start) × (start + 4096 ≤ length out.old) × (510 ≤ length message.old) }
    ensures within { Within start (start + 4096) out.old out.new }
    ensures same_length { SameLength message.old message.new }
    ensures reaches { Reaches 0 8 result }
    ensures recipes { Recipes f.now at base start out.old result message.new }
{
    let worked = work::term(f, at, out, base, start)?;
    slice::put(&out[start..worked.end], message, 0);
    Some(Worked {
        next: worked.next,
        end: worked.end - start,
    })
}
