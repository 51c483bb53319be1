// Runs of messages: how many nodes, and whether two are alike ("Messages": each submessage is one unbroken run).
ghost use Rattle.std.specs.Prelude.{◌≡◌, ◌*◌, ◌≤◌, length};
ghost use Rattle.message_bytes.specs.Run.{alike, SizeOf, Decides};

use crate::node;
use buffer::word;

// The most bytes of a run that is kept: 255 nodes ("Judging and its count").
pub const LENGTH: usize = 510;

// The nodes of the message that stands at the front; of a normal form, that is its size. A node is counted, and its parts are still to
// come.
pub fn size(m: &[u8]) -> usize
    ensures result_in_bounds { 2 * result ≤ length m.now }
    ensures size_of { SizeOf m.now result }
{
    let mut nodes: usize = 0;
    let mut left: usize = 1;
    while 0 < left {
        if m.len() < 2 * nodes + 2 {
            return nodes;
        }
        left = left - 1 + node::parts(word::number(m, 2 * nodes));
        nodes += 1;
    }
    nodes
}

// Whether two runs are the same, byte by byte. Of normal forms, that is whether the messages are equal.
pub fn compare(a: &[u8], b: &[u8]) -> bool
    ensures value { result ≡ alike a.now b.now }
    ensures decides { Decides a.now b.now result }
{
    a == b
}
