// The traversal of a process that seeks an offer, copies included ("Steps"): the traversal of that one task, which writes nothing but the messages
// that it hands over, so that it goes on with numbers alone. Nothing is validated again: where no process stands, the answer is open.
ghost use Rattle.std.specs.Prelude.{◌≡◌, ◌+◌, ◌≤◌, ◌<◌, length};
ghost use Rattle.buffer.specs.Buffer.{WrittenFrom};
ghost use Rattle.state_task.specs.Thread.{Seeks};
ghost use Rattle.state_search.specs.Seek.{begun_at, reached, GivesBack, Comes, SeekTraverses, SeekTraversesIf, SeekOpens};
ghost use Rattle.state_head.specs.Head.{RoomAtNode, BoundFits};
ghost use Rattle.index_process.specs.Index.{ShortModel};

use decode_layout::process_kind::ProcessKind;
use index_process::index;
use state_head::head::Head;
use state_head::{count, head};
use state_prefix::thread;
use state_progress::progress::Progress;
use state_record::state::State;
use state_task::place;
use state_task::task::Quest;

// What a traversal that seeks has come to: it goes on with a next private name; or it goes no further. Then it has the next private name, all
// copies on the way being opened, the mark of the thread that it found, or 0 where a limit was met, and from where to where the messages
// stand that it hands over.
#[derive(Clone, Copy)]
pub enum Sought {
    On(usize),
    Ended(usize, usize, usize, usize),
}

// The same as what a traversal has come to, whose state has no threads and begins at a position.
pub fn progress(sought: Sought, to: usize) -> Progress
    ensures { result ≡ reached to sought }
{
    match sought {
        Sought::On(names) => Progress {
            going: true,
            names,
            mark: 0,
            sent: 0,
            state: State::fresh(to, to, 0),
        },
        Sought::Ended(names, mark, sent, end) => Progress {
            going: false,
            names,
            mark,
            sent,
            state: State {
                aliases: to,
                start: to,
                end,
                threads: 0,
                nodes: 0,
                names: 0,
            },
        },
    }
}

// The numbers of what a traversal has come to, which goes on with a next private name.
fn numbers(done: Progress, names: usize) -> Sought
    ensures { Comes done names result }
{
    let going = done.going;
    let state = done.state;
    if going {
        return Sought::On(names);
    }
    Sought::Ended(done.names, done.mark, done.sent, state.end)
}

// The same with another next private name, if the traversal goes on.
fn named(sought: Sought, names: usize) -> Sought
    ensures { GivesBack sought names result }
{
    match sought {
        Sought::On(_) => Sought::On(names),
        Sought::Ended(_, _, _, _) => sought,
    }
}

// The offer at a position, if it is the one that is sought.
fn own(
    s: &[u8],
    argument: &[u8],
    at: usize,
    m: &mut [u8],
    end: usize,
    quest: Quest,
    names: usize,
    opens: usize,
    to: usize,
    out: &mut [u8],
) -> Sought
    requires { (at < length s.now) × (end + 4606 ≤ length m.old) × (ShortModel s.now) }
    ensures written_from { WrittenFrom end m.old m.new }
    ensures written_from_2 { WrittenFrom to out.old out.new }
    ensures seeks { Seeks s.now argument.now at m.old end quest opens out.old (begun_at to names) (reached to result) out.new }
{
    if thread::meant(quest, at, usize::from(s[at])) {
        let begun = progress(Sought::On(names), to);
        return numbers(
            thread::seek(s, argument, at, m, end, quest, opens, out, begun),
            names,
        );
    }
    Sought::On(names)
}

// The process at a position, with so many nodes left on its path, under the messages that are bound up to the position end, with the next
// private name names: copies open at the private name opens, and messages are handed over from the position to on.
#[cycle(seeking)]
pub fn seek(
    s: &[u8],
    argument: &[u8],
    at: usize,
    left: usize,
    m: &mut [u8],
    end: usize,
    quest: Quest,
    names: usize,
    opens: usize,
    to: usize,
    out: &mut [u8],
) -> Sought
    requires { BoundFits s.now m.old end }
    ensures written_from { WrittenFrom end m.old m.new }
    ensures written_from_2 { WrittenFrom to out.old out.new }
    ensures seek_traverses { SeekTraverses s.now argument.now at left m.old end quest names opens to out.old result out.new }
{
    let Some(head) = head::descend(s, at, left, m, end, names) else {
        return Sought::Ended(0, 0, 0, to);
    };
    let Head {
        at,
        left,
        end,
        names,
    } = head;
    match ProcessKind::try_from(s[at]) {
        Ok(ProcessKind::Nil) => Sought::On(names),
        Ok(ProcessKind::Par) => both(s, argument, at, left, m, end, quest, names, opens, to, out),
        Ok(ProcessKind::Repl) => repl(s, argument, at, left, m, end, quest, names, opens, to, out),
        _ => own(s, argument, at, m, end, quest, names, opens, to, out),
    }
}

// Par: the first side, and then the second.
#[cycle(seeking)]
fn both(
    s: &[u8],
    argument: &[u8],
    at: usize,
    left: usize,
    m: &mut [u8],
    end: usize,
    quest: Quest,
    names: usize,
    opens: usize,
    to: usize,
    out: &mut [u8],
) -> Sought
    requires { RoomAtNode s.now at left m.old end }
    ensures written_from { WrittenFrom end m.old m.new }
    ensures written_from_2 { WrittenFrom to out.old out.new }
    ensures seek_traverses_if { SeekTraversesIf 6 s.now argument.now at left m.old end quest names opens to out.old result out.new }
{
    let first = seek(
        s,
        argument,
        at + 1,
        left - 1,
        m,
        end,
        quest,
        names,
        opens,
        to,
        out,
    );
    match first {
        Sought::On(next) => seek(
            s,
            argument,
            index::end(s, at + 1),
            left - 1,
            m,
            end,
            quest,
            next,
            opens,
            to,
            out,
        ),
        Sought::Ended(_, _, _, _) => first,
    }
}

// Repl: a thread, of which a copy is opened, if it does not have the mark in it that the quest leaves out.
#[cycle(seeking)]
fn repl(
    s: &[u8],
    argument: &[u8],
    at: usize,
    left: usize,
    m: &mut [u8],
    end: usize,
    quest: Quest,
    names: usize,
    opens: usize,
    to: usize,
    out: &mut [u8],
) -> Sought
    requires { RoomAtNode s.now at left m.old end }
    ensures written_from { WrittenFrom end m.old m.new }
    ensures written_from_2 { WrittenFrom to out.old out.new }
    ensures seek_traverses_if { SeekTraversesIf 7 s.now argument.now at left m.old end quest names opens to out.old result out.new }
{
    if place::contains(s, at + 1, quest.excluded) {
        return Sought::On(names);
    }
    copy(s, argument, at, left, m, end, quest, names, opens, to, out)
}

// A copy of the repl thread at a position: its names are counted, since copies inside it open after them, and then the offer is sought in it.
// The names are given back.
#[cycle(seeking)]
fn copy(
    s: &[u8],
    argument: &[u8],
    at: usize,
    left: usize,
    m: &mut [u8],
    end: usize,
    quest: Quest,
    names: usize,
    opens: usize,
    to: usize,
    out: &mut [u8],
) -> Sought
    requires { (1 ≤ left) × (at < length s.now) × (end ≤ length m.old) × (ShortModel s.now) }
    ensures written_from { WrittenFrom end m.old m.new }
    ensures written_from_2 { WrittenFrom to out.old out.new }
    ensures seek_opens { SeekOpens s.now argument.now at left m.old end quest names opens to out.old result out.new }
{
    let Some(inner) = count::count(s, at + 1, left - 1, m, end, opens) else {
        return Sought::Ended(names, 0, 0, to);
    };
    named(
        seek(
            s,
            argument,
            at + 1,
            left - 1,
            m,
            end,
            quest,
            opens,
            inner,
            to,
            out,
        ),
        names,
    )
}
