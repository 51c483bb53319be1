// The equations, applied at the top of a message whose parts are in normal form ("Messages").
ghost use Rattle.std.specs.Prelude.{◌≤◌, length};
ghost use Rattle.buffer.specs.Buffer.{Within};
ghost use Rattle.message_normal.specs.Normal.{Projects, Undoes, Survives, Normalised};

use buffer::word;
use decode_layout::term_kind;
use message_bytes::{node, run};
use std::ops::Range;

// fst or snd, by its kind: of a pair, the first part or the second; else the whole.
fn projected(m: &[u8], kind: usize) -> Range<usize>
    requires { 4 ≤ length m.now }
    ensures result_le_result { (result.start ≤ result.end) × (result.end ≤ length m.now) }
    ensures projects { Projects m.now kind result.start result.end }
{
    if word::number(m, 2) != term_kind::PAIR {
        return 0..m.len();
    }
    let end = 4 + 2 * run::size(&m[4..]);
    if kind == term_kind::FST {
        return 4..end;
    }
    end..m.len()
}

// enc or dec, by its opposite: over that under the same key, the message inside; else the whole.
fn undone(m: &[u8], mid: usize, opposite: usize) -> Range<usize>
    requires { (4 ≤ mid) × (mid ≤ length m.now) }
    ensures result_le_result { (result.start ≤ result.end) × (result.end ≤ length m.now) }
    ensures undoes { Undoes m.now mid opposite result.start result.end }
{
    if word::number(m, 2) != opposite {
        return 0..m.len();
    }
    let end = 4 + 2 * run::size(&m[4..mid]);
    if run::compare(&m[end..mid], &m[mid..]) {
        return 4..end;
    }
    0..m.len()
}

// Which part of the message is its normal form. The first of the message's own parts ends at mid.
fn surviving(m: &[u8], mid: usize) -> Range<usize>
    requires { mid ≤ length m.now }
    ensures result_le_result { (result.start ≤ result.end) × (result.end ≤ length m.now) }
    ensures survives { Survives m.now mid result.start result.end }
{
    if mid < 4 {
        return 0..m.len();
    }
    let kind = word::number(m, 0);
    if node::parts(kind) == 1 {
        return projected(m, kind);
    }
    if kind == term_kind::ENC {
        return undone(m, mid, term_kind::DEC);
    }
    if kind == term_kind::DEC {
        return undone(m, mid, term_kind::ENC);
    }
    0..m.len()
}

// The slice is one message, its parts in normal form, the first of them ending at mid. Puts its normal form at the front, and answers
// where that ends. Of any other slice or mid, nothing is said but the bounds.
pub fn normalise(m: &mut [u8], mid: usize) -> usize
    requires { mid ≤ length m.old }
    ensures upper_bound { result ≤ length m.old }
    ensures within { Within 0 result m.old m.new }
    ensures normalised { Normalised m.old mid result m.new }
{
    let part = surviving(m, mid);
    if part.start == 0 {
        return part.end;
    }
    m.copy_within(part.start..part.end, 0);
    part.end - part.start
}
