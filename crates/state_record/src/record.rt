// The record of a thread: where its process stands in the model, how many bytes its bound messages take, and these messages ("Steps").
ghost use Rattle.std.specs.Prelude.{◌+◌, ◌*◌, ◌≤◌, ◌<◌, length};
ghost use Rattle.buffer.specs.Buffer.{Within};
ghost use Rattle.state_record.specs.Record.{NodesOf, Written, HeadStands};

use buffer::{slice, word};

// The nodes of the bound messages that the slice is.
pub fn nodes(b: &[u8]) -> usize
    ensures result_in_bounds { 2 * result ≤ length b.now + 131070 }
    ensures nodes_of { NodesOf b.now result }
{
    let mut at = 0;
    let mut sum = 0;
    while at + 1 < b.len() {
        let n = word::number(b, at);
        sum += n;
        at = at + 2 + 2 * n;
    }
    sum
}

// Writes the record of a thread, of whose bound messages the slice is the bytes, at a position.
pub fn write(b: &[u8], place: usize, out: &mut [u8], at: usize)
    requires { (at + 4 + length b.now ≤ length out.old) × (length b.now < 65536) × (place < 65536) }
    ensures within { Within at (at + 4 + length b.now) out.old out.new }
    ensures written { Written b.now place at out.new }
{
    head(out, at, place, b.len());
    slice::put(b, out, at + 4);
}

// The two numbers before the messages.
fn head(out: &mut [u8], at: usize, place: usize, size: usize)
    requires { (at + 4 ≤ length out.old) × (place < 65536) × (size < 65536) }
    ensures within { Within at (at + 4) out.old out.new }
    ensures head_stands { HeadStands at place size out.new }
{
    word::write(out, at, place);
    word::write(out, at + 2, size);
}
