// A thread of a state that stands in the work bytes, loaded to be traversed ("Steps").
ghost use Rattle.std.specs.Prelude.{◌+◌, ◌≤◌, length};
ghost use Rattle.buffer.specs.Buffer.{Within};
ghost use Rattle.state_record.specs.Stored.{Fetched, Loads};

use buffer::{slice, word};

// A thread that was loaded: where its process stands in the model, where its messages end in the bytes m, and where its record ends.
#[derive(Clone, Copy)]
pub struct Loaded {
    pub place: usize,
    pub end: usize,
    pub next: usize,
}

// Copies the bytes to the front of m.
pub fn fetch(b: &[u8], m: &mut [u8])
    requires { length b.now ≤ length m.old }
    ensures within { Within 0 (length b.now) m.old m.new }
    ensures fetched { Fetched b.now m.new }
{
    slice::put(b, m, 0);
}

// Loads the thread whose record stands at a position. Where none stands, the answer is open, but no byte is written behind it.
pub fn load(out: &[u8], at: usize, m: &mut [u8]) -> Loaded
    requires { at + 4 ≤ length out.now }
    ensures end_in_bounds { result.end ≤ length m.old }
    ensures within { Within 0 result.end m.old m.new }
    ensures loads { Loads out.now at result m.new }
{
    let place = word::number(out, at);
    let size = word::number(out, at + 2);
    if m.len() < size {
        return Loaded {
            place,
            end: 0,
            next: at,
        };
    }
    if out.len() - at < 4 + size {
        return Loaded {
            place,
            end: 0,
            next: at,
        };
    }
    fetch(&out[at + 4..at + 4 + size], m);
    Loaded {
        place,
        end: size,
        next: at + 4 + size,
    }
}
