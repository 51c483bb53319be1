// The aliases of a state that a step leads to, written behind the state that it leaves ("Steps").
ghost use Rattle.std.specs.Prelude.{◌≡◌, ◌≤◌};
ghost use Rattle.buffer.specs.Buffer.{WrittenFrom};
ghost use Rattle.successor_frame.specs.Aliases.{Copied, Appended, StartsAt, CountsNodes, Carries};

use message_binding::bind;
use state_progress::progress::Progress;
use state_record::record;
use state_record::state::State;

// Copies the aliases of a state behind it, and answers where they end.
fn copied(state: State, out: &mut [u8]) -> usize
    ensures written_from { WrittenFrom state.end out.old out.new }
    ensures lower_bound { state.end ≤ result }
    ensures copied { Copied state out.old result out.new }
{
    let from = state.aliases;
    let start = state.start;
    let end = state.end;
    let long = out.len();
    if start < from {
        return end;
    }
    let size = start - from;
    if end < start {
        return end;
    }
    if long < end {
        return end;
    }
    if long - end < size {
        return end;
    }
    out.copy_within(from..start, end);
    end + size
}

// Appends the message of an output, and answers where the aliases end.
fn appended(sends: bool, message: &[u8], out: &mut [u8], end: usize) -> usize
    ensures written_from { WrittenFrom end out.old out.new }
    ensures lower_bound { end ≤ result }
    ensures appended { Appended sends message.now out.old end result out.new }
{
    let long = out.len();
    if sends {
        if 510 < message.len() {
            return end;
        }
        if long < end {
            return end;
        }
        if long - end < 512 {
            return end;
        }
        return bind::message(message, out, end);
    }
    end
}

// A state with its aliases and no threads yet, or a traversal that met a limit.
pub fn carry(state: State, sends: bool, message: &[u8], names: usize, out: &mut [u8]) -> Progress
    ensures written_from { WrittenFrom state.end out.old out.new }
    ensures end_le_end { state.end ≤ result.state.end }
    ensures carries { Carries state message.now sends names out.old result out.new }
{
    let begin = state.end;
    let end = copied(state, out);
    let start = appended(sends, message, out, end);
    counted(begin, start, names, out)
}

// The nodes of the aliases that stand from a position to another are counted, and judged.
fn counted(begin: usize, start: usize, names: usize, out: &[u8]) -> Progress
    ensures end_value { result.state.end ≡ start }
    ensures counts_nodes { CountsNodes begin start names out.now result }
{
    if start < begin {
        return starts(false, begin, start, 0, names);
    }
    if out.len() < start {
        return starts(false, begin, start, 0, names);
    }
    let nodes = record::nodes(&out[begin..start]);
    if State::NODES < nodes {
        return starts(false, begin, start, nodes, names);
    }
    starts(true, begin, start, nodes, names)
}

// A state without threads, whose aliases have so many nodes, is begun, or a limit was met.
fn starts(going: bool, begin: usize, start: usize, nodes: usize, names: usize) -> Progress
    ensures { StartsAt going begin start nodes names result }
{
    Progress {
        going: going,
        names: names,
        mark: 0,
        sent: 0,
        state: State::fresh(begin, start, nodes),
    }
}
