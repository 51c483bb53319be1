// The private names that the rests of a step take ("Steps").
ghost use Rattle.std.specs.Prelude.{◌+◌, ◌≤◌, length};
ghost use Rattle.buffer.specs.Buffer.{WrittenFrom};
ghost use Rattle.successor_continuation.specs.Counting.{Comes, Enters, ComesIn, FixedBehind, Counts, CountsIn};
ghost use Rattle.index_process.specs.Index.{ShortModel};
ghost use Rattle.state_layout.specs.Layout.{RecordFits};

use decode_layout::limit;
use state_head::count as fixed_names;
use state_record::stored;
use state_task::place;
use state_task::task::CopyAt;
use successor_path::reach::Way;
use successor_path::{count, reach};

// From the thread whose record stands at a position down to the process at a mark, which may be its own. Copies open at a private name.
pub(crate) fn arrive(
    s: &[u8],
    at: usize,
    opens: usize,
    m: &mut [u8],
    mark: usize,
    out: &[u8],
) -> Way
    requires { RecordFits s.now out.now at }
    ensures end_in_bounds { result.end ≤ length m.new }
    ensures written_from { WrittenFrom 0 m.old m.new }
    ensures comes { Comes s.now at opens m.old mark out.now result m.new }
{
    let t = stored::load(out, at, m);
    let place = t.place;
    let way = Way {
        at: place,
        left: limit::PROCESS_NODES,
        end: t.end,
        names: 0,
        opens,
    };
    if place < s.len() {
        if place + 1 == mark {
            return way;
        }
    }
    reach::reach(s, way, m, mark)
}

// From a repl thread down to the process at a mark in its copies: in the same copy once more, copies inside it opening at the second name,
// or in a second copy, which opens there.
fn enter(s: &[u8], thread: Way, m: &mut [u8], copy: CopyAt, mark: usize) -> Way
    requires { (thread.end ≤ length m.old) × (ShortModel s.now) }
    ensures end_in_bounds { result.end ≤ length m.new }
    ensures written_from { WrittenFrom 0 m.old m.new }
    ensures enters { Enters s.now thread m.old copy mark result m.new }
{
    let at = thread.at;
    let left = thread.left;
    if copy.arity == 1 {
        if left == 0 {
            return thread;
        }
        if s.len() <= at {
            return thread;
        }
        let inner = Way {
            at: at + 1,
            left: left - 1,
            end: thread.end,
            names: thread.opens,
            opens: copy.second,
        };
        return reach::reach(s, inner, m, mark);
    }
    let again = Way {
        at,
        left,
        end: thread.end,
        names: 0,
        opens: copy.second,
    };
    reach::reach(s, again, m, mark)
}

// From the thread whose record stands at a position down to the offer at a mark in the copies of one of its repl threads.
pub(crate) fn arrive_in(
    s: &[u8],
    at: usize,
    opens: usize,
    m: &mut [u8],
    copy: CopyAt,
    mark: usize,
    out: &[u8],
) -> Way
    requires { RecordFits s.now out.now at }
    ensures end_in_bounds { result.end ≤ length m.new }
    ensures written_from { WrittenFrom 0 m.old m.new }
    ensures comes_in { ComesIn s.now at opens m.old copy mark out.now result m.new }
{
    let thread = arrive(s, at, opens, m, copy.place, out);
    enter(s, thread, m, copy, mark)
}

// The private name after those of what follows the offer at a mark, settled at a private name, if the index has their number. Nobody has to go
// down to the offer then.
fn fixed(s: &[u8], mark: usize, names: usize) -> Option<usize>
    ensures { FixedBehind s.now mark names result }
{
    if mark == 0 {
        return None;
    }
    let at = mark - 1;
    if s.len() <= at {
        return None;
    }
    fixed_names::fixed(s, place::rest(s, at), names)
}

// The private name after those of what follows the offer at a mark of the thread whose record stands at a position, settled at a private
// name. Copies open at another one. None where a limit is met.
pub fn count(
    s: &[u8],
    argument: &[u8],
    at: usize,
    opens: usize,
    m: &mut [u8],
    mark: usize,
    names: usize,
    out: &[u8],
) -> Option<usize>
    requires { RecordFits s.now out.now at }
    ensures written_from { WrittenFrom 0 m.old m.new }
    ensures counts { Counts s.now argument.now at opens m.old mark names out.now result }
{
    if let Some(next) = fixed(s, mark, names) {
        return Some(next);
    }
    let offer = arrive(s, at, opens, m, mark, out);
    count::rest(s, argument, offer.at, offer.left, m, offer.end, names)
}

// The same for an offer in the copies of a repl thread.
pub fn count_in(
    s: &[u8],
    argument: &[u8],
    at: usize,
    opens: usize,
    m: &mut [u8],
    copy: CopyAt,
    mark: usize,
    names: usize,
    out: &[u8],
) -> Option<usize>
    requires { RecordFits s.now out.now at }
    ensures written_from { WrittenFrom 0 m.old m.new }
    ensures counts_in { CountsIn s.now argument.now at opens m.old copy mark names out.now result }
{
    if let Some(next) = fixed(s, mark, names) {
        return Some(next);
    }
    let offer = arrive_in(s, at, opens, m, copy, mark, out);
    count::rest(s, argument, offer.at, offer.left, m, offer.end, names)
}
