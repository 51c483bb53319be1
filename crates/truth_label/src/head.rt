// The head of a step formula at a state: its label, with the messages of its recipes, and where its body stands ("Steps").
ghost use Rattle.std.specs.Prelude.{◌+◌, ◌≤◌, length};
ghost use Rattle.buffer.specs.Buffer.{Within, SameLength};
ghost use Rattle.decode_layout.specs.Kind.{formula_number};
ghost use Rattle.truth_label.specs.Head.{Heads, Short};
ghost use Rattle.truth_label.specs.Inner.{output_head, input_head, Tells, Inputs, Silences};

use crate::recipe;
use buffer::word;
use decode_layout::formula_kind::FormulaKind;
use message_term::work::Worked;
use step_label::step::Label;

// What the step does, where the body of the formula stands, and how many bytes the messages of the channel and of an input take.
// There is no head where a part of a recipe is too large.
#[derive(Clone, Copy)]
pub struct Head {
    pub label: Label,
    pub body: usize,
    pub channel: usize,
    pub taken: usize,
}

// A node that stands for public name 0.
const NAME: usize = 16;

// The label of an output, whose channel stands at a position.
fn output(
    f: &[u8],
    at: usize,
    base: usize,
    start: usize,
    out: &mut [u8],
    channel: &mut [u8],
) -> Option<Head>
    requires { (base ≤ start) × (start + 4096 ≤ length out.old) × (510 ≤ length channel.old) }
    ensures within { Within start (start + 4096) out.old out.new }
    ensures same_length { SameLength channel.old channel.new }
    ensures short { Short result }
    ensures tells { Tells f.now at base start out.old output_head result channel.new }
{
    let Worked { next, end } = recipe::recipe(f, at, base, start, out, channel)?;
    Some(Head {
        label: Label::Output,
        body: next,
        channel: end,
        taken: 0,
    })
}

// The label of an input, whose message stands at a position, its channel's message taking so many bytes.
fn message(
    f: &[u8],
    at: usize,
    base: usize,
    start: usize,
    out: &mut [u8],
    channel: usize,
    taken: &mut [u8],
) -> Option<Head>
    requires { (base ≤ start) × (start + 4096 ≤ length out.old) × (510 ≤ length taken.old) × (channel ≤ 510) }
    ensures within { Within start (start + 4096) out.old out.new }
    ensures same_length { SameLength taken.old taken.new }
    ensures short { Short result }
    ensures tells { Tells f.now at base start out.old (input_head channel) result taken.new }
{
    let Worked { next, end } = recipe::recipe(f, at, base, start, out, taken)?;
    Some(Head {
        label: Label::Input,
        body: next,
        channel: channel,
        taken: end,
    })
}

// The label of an input, whose channel and message stand at a position.
fn input(
    f: &[u8],
    at: usize,
    base: usize,
    start: usize,
    out: &mut [u8],
    channel: &mut [u8],
    taken: &mut [u8],
) -> Option<Head>
    requires base_le_start { (base ≤ start) × (start + 4096 ≤ length out.old) }
    requires in_bounds { (510 ≤ length channel.old) × (510 ≤ length taken.old) }
    ensures within { Within start (start + 4096) out.old out.new }
    ensures same_length { SameLength channel.old channel.new }
    ensures same_length_2 { SameLength taken.old taken.new }
    ensures short { Short result }
    ensures inputs { Inputs f.now at base start out.old result channel.new taken.new }
{
    let Worked { next, end } = recipe::recipe(f, at, base, start, out, channel)?;
    message(f, next, base, start, out, end, taken)
}

// The label of a silent step. It has no channel; a search is given the run of some message all the same.
fn silent(at: usize, channel: &mut [u8]) -> Option<Head>
    requires { 510 ≤ length channel.old }
    ensures same_length { SameLength channel.old channel.new }
    ensures short { Short result }
    ensures silences { Silences at result channel.new }
{
    word::write(channel, 0, NAME);
    Some(Head {
        label: Label::Silent,
        body: at,
        channel: 2,
        taken: 0,
    })
}

// Works the head of the step formula of a kind, whose fields stand at a position. Its recipes are worked under the messages that are bound at
// base, in the work bytes from start on, and their messages are written to the front of two slices.
pub fn work(
    f: &[u8],
    kind: FormulaKind,
    at: usize,
    base: usize,
    start: usize,
    out: &mut [u8],
    channel: &mut [u8],
    taken: &mut [u8],
) -> Option<Head>
    requires base_le_start { (base ≤ start) × (start + 4096 ≤ length out.old) }
    requires in_bounds { (510 ≤ length channel.old) × (510 ≤ length taken.old) }
    ensures within { Within start (start + 4096) out.old out.new }
    ensures same_length { SameLength channel.old channel.new }
    ensures same_length_2 { SameLength taken.old taken.new }
    ensures short { Short result }
    ensures heads { Heads f.now (formula_number kind) at base start out.old result channel.new taken.new }
{
    match kind {
        FormulaKind::Output => output(f, at, base, start, out, channel),
        FormulaKind::Input => input(f, at, base, start, out, channel, taken),
        _ => silent(at, channel),
    }
}
