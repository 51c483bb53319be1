// The index of a model ("Bytes"): the model stands in the first 4,096 bytes of a slice, and behind them the entry of each position, eight
// bytes, says what is to be known of the process that stands there: three numbers in two bytes each, and two in one byte each.
ghost use Rattle.std.specs.Prelude.{◌+◌, ◌*◌, ◌≤◌, ◌<◌, length, IfSome};
ghost use Rattle.buffer.specs.Buffer.{SameLength, WrittenFrom};
ghost use Rattle.index_process.specs.Index.{Says, SaysByte, Ends, Lasts, Fixes, GrowsBy, Writes, Notes, Indexes, IndexesRow, Builds, ShortModel};

use buffer::{slice, word};
use decode_layout::layout::Layout;
use decode_layout::{ends, layout, limit};
use index_entry::entry;
use index_entry::entry::Entry;

// How many bytes there are with the index.
pub const LENGTH: usize = 36864;

// How many bytes a short model has at most, and how many there are with its index.
pub const SHORT: usize = 512;

pub const SHORT_LENGTH: usize = 8192;

// The numbers of an entry that have two bytes, in their order.
const END: usize = 0;

const OUTPUT: usize = 1;

const INPUT: usize = 2;

// Those that have one byte and stand behind them, in their order.
const NAMES: usize = 0;

const GROWTH: usize = 1;

// A number of two bytes in the entry of a position.
fn number(s: &[u8], at: usize, field: usize) -> usize
    requires { field < 3 }
    ensures upper_bound { result < 65536 }
    ensures says { Says s.now at field result }
{
    if limit::SLICE <= at {
        return 0;
    }
    let entry = limit::SLICE + 8 * at;
    if s.len() < entry + 8 {
        return 0;
    }
    word::number(s, entry + 2 * field)
}

// A number of one byte there, or another one where no entry can stand.
fn byte(s: &[u8], at: usize, field: usize, none: usize) -> usize
    requires { (field < 2) × (none < 256) }
    ensures upper_bound { result < 256 }
    ensures says_byte { SaysByte s.now at field result }
{
    if limit::SLICE <= at {
        return none;
    }
    let behind = limit::SLICE + 8 * at + 6;
    if s.len() < behind + 2 {
        return none;
    }
    usize::from(s[behind + field])
}

// The end of the process at a position, if one stands there that the index has.
pub fn end(s: &[u8], at: usize) -> usize
    ensures lower_bound { at ≤ result }
    ensures ends { Ends s.now at result }
{
    let noted = number(s, at, END);
    if noted < at {
        return at;
    }
    noted
}

// The position after the kind of the last output, or input, that such a process offers at once; 0 if there is none.
pub fn last(s: &[u8], at: usize, output: bool) -> usize
    ensures { Lasts s.now at output result }
{
    if output {
        return number(s, at, OUTPUT);
    }
    number(s, at, INPUT)
}

// How many private names settling such a process takes; none if a message decides that, or if they are above 254, which are more than a
// state has.
pub fn names(s: &[u8], at: usize) -> Option<usize>
    ensures upper_bound { IfSome result (λ n. n < 255) }
    ensures fixes { Fixes s.now at result }
{
    byte(s, at, NAMES, 0).checked_sub(1)
}

// How far such a process may grow; 33 where no entry can stand, as if there were no room for it.
pub fn growth(s: &[u8], at: usize) -> usize
    ensures upper_bound { result < 256 }
    ensures grows_by { GrowsBy s.now at result }
{
    byte(s, at, GROWTH, entry::MOST)
}

// Writes two numbers at a position.
fn write(s: &mut [u8], at: usize, first: usize, second: usize)
    requires { (at + 3 < length s.old) × (first < 65536) × (second < 65536) }
    ensures same_length { SameLength s.old s.new }
    ensures writes { Writes s.old at first second s.new }
{
    word::write(s, at, first);
    word::write(s, at + 2, second);
}

// Notes the entry of a position, if the slice has room for it. Its last two bytes are written as one number, the lower byte first.
fn note(s: &mut [u8], at: usize, entry: Entry)
    requires { (4096 ≤ length s.old) × (ShortModel s.old) }
    ensures written_from { WrittenFrom 4096 s.old s.new }
    ensures notes { Notes s.old at entry s.new }
{
    if limit::SLICE <= at {
        return;
    }
    if entry::large(entry) {
        return;
    }
    let place = limit::SLICE + 8 * at;
    if s.len() < place + 8 {
        return;
    }
    write(s, place, entry.end, entry.output);
    write(
        s,
        place + 4,
        entry.input,
        entry::short(entry.names) + 256 * entry.growth,
    );
}

// Notes the entries of the process at a position and of all that is in it, with so many nodes left on its path; the answer is its own.
#[cycle(indexing)]
fn index(s: &mut [u8], at: usize, left: usize) -> Entry
    requires { (4096 ≤ length s.old) × (ShortModel s.old) }
    ensures written_from { WrittenFrom 4096 s.old s.new }
    ensures indexes { Indexes s.old at left result s.new }
{
    if left == 0 {
        return entry::none(at);
    }
    if limit::SLICE <= at {
        return entry::none(at);
    }
    let k = usize::from(s[at]) % layout::PROCESS_KINDS;
    let Layout { fields, parts, .. } = layout::process(k);
    let own = ends::terms(s, at + 1, fields);
    let entry = entry::node(k, at, row(s, own, left - 1, parts));
    note(s, at, entry);
    entry
}

// The same of so many processes in a row, two at most.
#[cycle(indexing)]
fn row(s: &mut [u8], at: usize, left: usize, count: usize) -> Entry
    requires { (4096 ≤ length s.old) × (ShortModel s.old) }
    ensures written_from { WrittenFrom 4096 s.old s.new }
    ensures indexes_row { IndexesRow s.old at left count result s.new }
{
    if count == 0 {
        return entry::none(at);
    }
    let first = index(s, at, left);
    if count == 1 {
        return first;
    }
    entry::joined(first, index(s, first.end, left))
}

// The model that the first slice is, put into the second one with its index.
pub fn build(model: &[u8], s: &mut [u8])
    requires { (4096 + 8 * length model.now ≤ length s.old) × (ShortModel s.old) }
    ensures same_length { SameLength s.old s.new }
    ensures builds { Builds model.now s.new }
{
    slice::put(model, s, 0);
    index(s, 0, limit::PROCESS_NODES);
}
