// The next offer among the threads of a state that stands in the work bytes ("Steps").
ghost use Rattle.std.specs.Prelude.{◌≡◌, ◌+◌, ◌≤◌, ◌<◌, length};
ghost use Rattle.buffer.specs.Buffer.{WrittenFrom};
ghost use Rattle.step_offer.specs.Seek.{Looks, Alone, Seeks};
ghost use Rattle.index_process.specs.Index.{ShortModel};
ghost use Rattle.state_layout.specs.Layout.{RecordFits, RecordsFit};

use crate::pass;
use buffer::word;
use decode_layout::limit;
use decode_layout::process_kind::ProcessKind;
use state_head::head;
use state_prefix::thread;
use state_progress::progress;
use state_progress::progress::Progress;
use state_record::stored;
use state_search::seek;
use state_task::task::Quest;

// An offer: where the record of its thread stands, and what the traversal of that thread found. Its mark is 0 where there is none.
#[derive(Clone, Copy)]
pub struct Sighting {
    pub at: usize,
    pub done: Progress,
}

// No offer.
fn nothing(at: usize, to: usize, names: usize) -> Sighting
    ensures { result.done.mark ≡ 0 }
{
    Sighting {
        at,
        done: progress::begin(to, names),
    }
}

// The offer of a thread that acts by itself, whose record stands at one position and its process at another. The traversal goes on where it is not
// sought.
fn alone(
    s: &[u8],
    argument: &[u8],
    at: usize,
    place: usize,
    to: usize,
    m: &mut [u8],
    quest: Quest,
    names: usize,
    out: &mut [u8],
) -> Progress
    requires { (at + 4 ≤ length out.old) × (place < length s.now) × (ShortModel s.now) }
    ensures written_from { WrittenFrom 0 m.old m.new }
    ensures written_from_2 { WrittenFrom to out.old out.new }
    ensures alone { Alone s.now argument.now at place to m.old quest names out.old result out.new }
{
    let begun = progress::begin(to, names);
    let end = stored::load(out, at, m).end;
    if m.len() - end < head::REACH {
        return begun;
    }
    thread::seek(s, argument, place, m, end, quest, names, out, begun)
}

// The first offer of the thread whose record stands at a position, by a traversal of it. The traversal goes on where there is none.
fn traversed(
    s: &[u8],
    argument: &[u8],
    at: usize,
    to: usize,
    m: &mut [u8],
    quest: Quest,
    names: usize,
    out: &mut [u8],
) -> Progress
    requires { RecordFits s.now out.old at }
    ensures written_from { WrittenFrom 0 m.old m.new }
    ensures written_from_2 { WrittenFrom to out.old out.new }
    ensures looks { Looks s.now argument.now at to m.old quest names out.old result out.new }
{
    let t = stored::load(out, at, m);
    let sought = seek::seek(
        s,
        argument,
        t.place,
        limit::PROCESS_NODES,
        m,
        t.end,
        quest,
        names,
        names,
        to,
        out,
    );
    seek::progress(sought, to)
}

// The first offer of the thread whose record stands at a position: its own, or one of its copies, which are traversed. The traversal goes on
// where there is none.
fn look(
    s: &[u8],
    argument: &[u8],
    at: usize,
    to: usize,
    m: &mut [u8],
    quest: Quest,
    names: usize,
    out: &mut [u8],
) -> Progress
    requires { RecordFits s.now out.old at }
    ensures written_from { WrittenFrom 0 m.old m.new }
    ensures written_from_2 { WrittenFrom to out.old out.new }
    ensures looks { Looks s.now argument.now at to m.old quest names out.old result out.new }
{
    let place = word::number(out, at);
    if s.len() <= place {
        return progress::begin(to, names);
    }
    match ProcessKind::try_from(s[place]) {
        Ok(ProcessKind::Repl) => traversed(s, argument, at, to, m, quest, names, out),
        _ => alone(s, argument, at, place, to, m, quest, names, out),
    }
}

// The first offer of a quest among the threads whose records stand from a position to another, which is the end of the state: what the traversals
// write stands behind it. The thread whose record stands at the position skip is passed over.
pub fn seek(
    s: &[u8],
    argument: &[u8],
    at: usize,
    to: usize,
    m: &mut [u8],
    quest: Quest,
    skip: usize,
    names: usize,
    out: &mut [u8],
) -> Sighting
    requires { RecordsFit s.now out.old to }
    ensures written_from { WrittenFrom 0 m.old m.new }
    ensures written_from_2 { WrittenFrom to out.old out.new }
    ensures seeks { Seeks s.now argument.now at to m.old quest skip names out.old result out.new }
{
    if to < 4 {
        return nothing(at, to, names);
    }
    let last = to - 4;
    let first = pass::pass(s, argument, at, to, quest, skip, out);
    let mut i = first.at;
    let mut from = first.from;
    while i <= last {
        let here = pass::starting(quest, from);
        let done = look(s, argument, i, to, m, here, names, out);
        let going = done.going;
        if !going {
            // Field by field: as a whole it would be copied in overlapping pieces, whose loads wait for the stores.
            let state = done.state;
            return Sighting {
                at: i,
                done: Progress {
                    going,
                    names: done.names,
                    mark: done.mark,
                    sent: done.sent,
                    state,
                },
            };
        }
        let further = pass::behind(s, argument, i, to, quest, skip, out);
        i = further.at;
        from = further.from;
    }
    nothing(i, to, names)
}
