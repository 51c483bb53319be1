// The channel and the message of an output that a traversal hands over in the work bytes, copied to where they stay ("Steps").
ghost use Rattle.std.specs.Prelude.{length, ◌≤◌};
ghost use Rattle.step_offer.specs.Hand.{Copies, CopiesTo, Hands};
ghost use Rattle.buffer.specs.Buffer.{SameLength};

use message_bytes::run;
use state_record::stored;

// How many bytes each of them takes.
#[derive(Clone, Copy)]
pub struct Handed {
    pub channel: usize,
    pub message: usize,
}

// Copies the two messages that stand one after the other from a position on.
pub fn hand(out: &[u8], from: usize, channel: &mut [u8], message: &mut [u8]) -> Handed
    ensures same_length { SameLength channel.old channel.new }
    ensures same_length_2 { SameLength message.old message.new }
    ensures channel_in_bounds { result.channel ≤ length channel.old }
    ensures hands { Hands out.now from result channel.new message.new }
{
    if out.len() < from {
        return Handed {
            channel: 0,
            message: 0,
        };
    }
    let first = one(out, from, channel);
    let second = one(out, from + first, message);
    Handed {
        channel: first,
        message: second,
    }
}

// Copies the message that stands at a position to the front of a slice, and answers how many bytes it takes.
pub fn one(out: &[u8], from: usize, to: &mut [u8]) -> usize
    ensures upper_bound { result ≤ length to.old }
    ensures same_length { SameLength to.old to.new }
    ensures copies { Copies out.now from result to.new }
{
    if out.len() < from {
        return 0;
    }
    until(out, from, from + 2 * run::size(&out[from..]), to)
}

// Copies the message that stands from a position to another to the front of a slice, and answers how many bytes it takes.
pub fn until(out: &[u8], from: usize, end: usize, to: &mut [u8]) -> usize
    ensures upper_bound { result ≤ length to.old }
    ensures same_length { SameLength to.old to.new }
    ensures copies_to { CopiesTo out.now from end result to.new }
{
    let Some(run) = out.get(from..end) else {
        return 0;
    };
    if to.len() < run.len() {
        return 0;
    }
    stored::fetch(run, to);
    run.len()
}
