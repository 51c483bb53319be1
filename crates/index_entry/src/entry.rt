// What the index says of a process, and of processes in a row ("Bytes"; "Steps").
ghost use Rattle.std.specs.Prelude.{◌≡◌, ◌<◌};
ghost use Rattle.index_entry.specs.Entry.{latest, capped, short, entry, named, Together, JoinsEntries, IsNode, IsLarge};

use decode_layout::limit;

// The most that a growth says: more than a state has threads.
pub const MOST: usize = 33;

// The most that a byte holds.
const BYTE: usize = 255;

// Where a process ends; the position after the kind of the last output that it offers at once, in whatever branch and in copies too, and the
// same of inputs, 0 if there is none; how many private names it takes, and one more, or 0 if a message decides that; and how far it may grow:
// the threads that it has at most after it was settled and one copy of each repl in it was opened, and the private names on the way.
#[derive(Clone, Copy)]
pub struct Entry {
    pub end: usize,
    pub output: usize,
    pub input: usize,
    pub names: usize,
    pub growth: usize,
}

// The entry of no process.
pub fn none(at: usize) -> Entry
    ensures { result ≡ entry at 0 0 1 0 }
{
    Entry {
        end: at,
        output: 0,
        input: 0,
        names: 1,
        growth: 0,
    }
}

// Whether a number is above those of the positions of the model, or the growth above the most.
pub fn large(entry: Entry) -> bool
    ensures { IsLarge entry result }
{
    limit::SLICE < entry.end
        || limit::SLICE < entry.output
        || limit::SLICE < entry.input
        || limit::SLICE < entry.names
        || MOST < entry.growth
}

// The later one of two positions.
fn latest(a: usize, b: usize) -> usize
    ensures { result ≡ latest a b }
{
    a.max(b)
}

// Names of two processes together, each given with one more; 0 if either is open.
fn together(a: usize, b: usize) -> usize
    ensures { Together a b result }
{
    if a == 0 || b == 0 || limit::SLICE < a || limit::SLICE < b {
        return 0;
    }
    a + b - 1
}

// Two numbers together, but 33 at most.
fn capped(a: usize, b: usize) -> usize
    ensures { result ≡ capped a b }
{
    a.saturating_add(b).min(MOST)
}

// A number of names as a byte has it: 0, so open, if it is too large for a byte.
pub fn short(names: usize) -> usize
    ensures upper_bound { result < 256 }
    ensures value { result ≡ short names }
{
    if BYTE < names {
        return 0;
    }
    names
}

// The entry of two processes in a row.
pub fn joined(first: Entry, second: Entry) -> Entry
    ensures { JoinsEntries first second result }
{
    Entry {
        end: second.end,
        output: latest(first.output, second.output),
        input: latest(first.input, second.input),
        names: together(first.names, second.names),
        growth: capped(first.growth, second.growth),
    }
}

// An entry with other names and another growth.
fn named(entry: Entry, names: usize, growth: usize) -> Entry
    ensures { result ≡ named entry names growth }
{
    Entry {
        names,
        growth,
        ..entry
    }
}

// The entry of a node at a position, from the one of its parts.
pub fn node(kind: usize, at: usize, inner: Entry) -> Entry
    requires { (kind < 8) × (at < 4096) }
    ensures { IsNode kind at inner result }
{
    match kind {
        0 => inner, // nil
        1 => named(inner, together(2, inner.names), capped(1, inner.growth)), // new
        2 => Entry {
            end: inner.end,
            output: at + 1,
            input: 0,
            names: 1,
            growth: 1,
        }, // output
        3 => Entry {
            end: inner.end,
            output: 0,
            input: at + 1,
            names: 1,
            growth: 1,
        }, // input
        4 => named(inner, 0, inner.growth), // if
        5 => named(inner, 0, MOST), // let
        6 => inner, // par
        _ => named(inner, 1, capped(1, inner.growth)), // repl
    }
}
