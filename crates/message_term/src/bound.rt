// Bound messages: those of the variables or the aliases in scope, one after the other, each behind the number of its nodes ("Steps").
ghost use Rattle.std.specs.Prelude.{◌+◌, ◌≤◌, length};
ghost use Rattle.message_term.specs.Bound.{Begins, Found};

use buffer::word;
use std::ops::Range;

// Where the entry of variable k begins: the number before each message tells where the next one is.
fn skip(b: &[u8], k: usize) -> usize
    ensures upper_bound { result ≤ length b.now + 131070 }
    ensures begins { Begins b.now k result }
{
    let mut at = 0;
    for _ in 0..k {
        if b.len() < at + 2 {
            return at;
        }
        at = at + 2 + 2 * word::number(b, at);
    }
    at
}

// The message of variable k; where there is none, some part of the slice.
pub(crate) fn find(b: &[u8], k: usize) -> Range<usize>
    ensures result_le_result { (result.start ≤ result.end) × (result.end ≤ length b.now) }
    ensures found { Found b.now k result.start result.end }
{
    let at = skip(b, k);
    if b.len() < at + 2 {
        return 0..0;
    }
    let end = at + 2 + 2 * word::number(b, at);
    if b.len() < end {
        return 0..0;
    }
    at + 2..end
}
