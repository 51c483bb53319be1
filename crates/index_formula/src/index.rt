// The index of a formula ("Bytes", the formula kinds): the formula stands in the first 4,096 bytes of a slice, and behind them the entry of
// each position, one number in two bytes, says of the formula that stands there where it ends and whether it has steps.
ghost use Rattle.std.specs.Prelude.{◌≡◌, true, ◌≤◌, ◌<◌, length};
ghost use Rattle.buffer.specs.Buffer.{Within};
ghost use Rattle.index_formula.specs.Index.{entry, joined, node_of, Says, Ends, Stepless, Notes, Indexes, IndexesRow, Builds};

use buffer::{slice, word};
use decode_layout::layout::Layout;
use decode_layout::{ends, formula_kind, layout, limit};

// How many bytes there are with the index.
pub const LENGTH: usize = 12288;

// Where a formula ends, and whether it has no steps.
#[derive(Clone, Copy)]
pub(crate) struct Entry {
    pub end: usize,
    pub stepless: bool,
}

// The entry of no formula.
fn none(at: usize) -> Entry
    ensures { result ≡ entry at true }
{
    Entry {
        end: at,
        stepless: true,
    }
}

// The number in the entry of a position.
fn number(f: &[u8], at: usize) -> usize
    ensures upper_bound { result < 65536 }
    ensures says { Says f.now at result }
{
    if limit::SLICE <= at {
        return 0;
    }
    let entry = limit::SLICE + 2 * at;
    if f.len() < entry + 2 {
        return 0;
    }
    word::number(f, entry)
}

// The end of the formula at a position, if one stands there that the index has.
pub fn end(f: &[u8], at: usize) -> usize
    ensures { Ends f.now at result }
{
    number(f, at) / 2
}

// Whether such a formula has no steps.
pub fn stepless(f: &[u8], at: usize) -> bool
    ensures { Stepless f.now at result }
{
    number(f, at) % 2 == 1
}

// The entry of two formulas in a row.
fn joined(first: Entry, second: Entry) -> Entry
    ensures { result ≡ joined first second }
{
    Entry {
        end: second.end,
        stepless: first.stepless & second.stepless,
    }
}

// The entry of a node by its kind, from the one of its parts.
fn node(kind: usize, parts: Entry) -> Entry
    ensures { result ≡ node_of kind parts }
{
    Entry {
        end: parts.end,
        stepless: parts.stepless & (kind < formula_kind::OUTPUT),
    }
}

// Notes the entry of a position.
fn note(f: &mut [u8], at: usize, entry: Entry)
    requires { length f.old ≡ 12288 }
    ensures within { Within 4096 12288 f.old f.new }
    ensures notes { Notes f.old at entry f.new }
{
    if limit::SLICE <= at {
        return;
    }
    if limit::SLICE < entry.end {
        return;
    }
    let place = limit::SLICE + 2 * at;
    if entry.stepless {
        word::write(f, place, 2 * entry.end + 1);
    } else {
        word::write(f, place, 2 * entry.end);
    }
}

// Notes the entries of the formula at a position and of all that is in it, with so many nodes left on its path; the answer is its own.
#[cycle(indexing)]
fn index(f: &mut [u8], at: usize, left: usize) -> Entry
    requires { length f.old ≡ 12288 }
    ensures within { Within 4096 12288 f.old f.new }
    ensures indexes { Indexes f.old at left result f.new }
{
    if left == 0 {
        return none(at);
    }
    if limit::SLICE <= at {
        return none(at);
    }
    let kind = usize::from(f[at]) % layout::FORMULA_KINDS;
    let Layout { fields, parts, .. } = layout::formula(kind);
    let own = ends::terms(f, at + 1, fields);
    let entry = node(kind, row(f, own, left - 1, parts));
    note(f, at, entry);
    entry
}

// The same of so many formulas in a row, two at most.
#[cycle(indexing)]
fn row(f: &mut [u8], at: usize, left: usize, count: usize) -> Entry
    requires { length f.old ≡ 12288 }
    ensures within { Within 4096 12288 f.old f.new }
    ensures indexes_row { IndexesRow f.old at left count result f.new }
{
    if count == 0 {
        return none(at);
    }
    let first = index(f, at, left);
    if count == 1 {
        return first;
    }
    joined(first, index(f, first.end, left))
}

// The formula that the first slice is, put into the second one with its index.
pub fn build(formula: &[u8], f: &mut [u8])
    requires { (length formula.now ≤ 4096) × (length f.old ≡ 12288) }
    ensures f_len { length f.new ≡ 12288 }
    ensures builds { Builds formula.now f.new }
{
    slice::put(formula, f, 0);
    index(f, 0, limit::FORMULA_NODES);
}
