// The threads of a state that do not act: their records, which stand one after the other, are kept as one block ("Steps").
ghost use Rattle.std.specs.Prelude.{◌≤◌, length};
ghost use Rattle.buffer.specs.Buffer.{WrittenFrom};
ghost use Rattle.state_progress.specs.Progress.{Extends};
ghost use Rattle.successor_rebuild.specs.Block.{Still, Halts, HasRoom, Keeps, KeepsOn};

use buffer::word;
use state_progress::progress;
use state_progress::progress::Progress;
use state_record::record;
use state_record::state::State;

// Where the records end, how many threads they are, and how many nodes their messages have.
#[derive(Clone, Copy)]
pub struct Block {
    pub end: usize,
    pub threads: usize,
    pub nodes: usize,
}

// The records from a position on, up to that of a thread that acts, whose record stands at the position first or second. A block that is
// over the limit of nodes goes no further.
pub fn measure(out: &[u8], at: usize, to: usize, first: usize, second: usize) -> Block
    requires { (at ≤ to) × (to ≤ length out.now) }
    ensures at_le_end { (at ≤ result.end) × (result.end ≤ to) }
    ensures still { Still out.now at to first second result }
    ensures halts { Halts out.now to first second result }
{
    let mut end = at;
    let mut threads = 0;
    let mut nodes = 0;
    while 4 <= to - end && end != first && end != second && nodes <= State::NODES {
        let next = end + 4 + word::number(out, end + 2);
        if to < next {
            return Block {
                end,
                threads,
                nodes,
            };
        }
        nodes += record::nodes(&out[end + 4..next]);
        threads += 1;
        end = next;
    }
    Block {
        end,
        threads,
        nodes,
    }
}

// Whether a state has room for the block, whose records begin at a position, within the limits and in work bytes of a length.
fn fits(state: State, block: Block, at: usize, long: usize) -> bool
    requires { at ≤ block.end }
    ensures { HasRoom state block at long result }
{
    state.threads <= State::THREADS
        && block.threads <= State::THREADS - state.threads
        && state.nodes <= State::NODES
        && block.nodes <= State::NODES - state.nodes
        && block.end <= state.end
        && state.end <= long
        && block.end - at <= long - state.end
}

// The block, whose records begin at a position, written once more behind the state that is being written.
pub fn keep(out: &mut [u8], at: usize, block: Block, done: Progress) -> Progress
    requires { at ≤ block.end }
    ensures extends { Extends done result }
    ensures written_from { WrittenFrom done.state.end out.old out.new }
    ensures keeps { Keeps out.old at block done result out.new }
{
    let state = done.state;
    if !fits(state, block, at, out.len()) {
        return progress::stop(done);
    }
    let last = state.end;
    let size = block.end - at;
    let further = State {
        end: last + size,
        threads: state.threads + block.threads,
        nodes: state.nodes + block.nodes,
        ..state
    };
    out.copy_within(at..block.end, last);
    Progress {
        going: true,
        names: done.names,
        mark: 0,
        sent: 0,
        state: further,
    }
}

// The block, written once more behind the state that is being written, if the traversal still goes on.
pub fn again(out: &mut [u8], at: usize, block: Block, done: Progress) -> Progress
    requires { at ≤ block.end }
    ensures extends { Extends done result }
    ensures written_from { WrittenFrom done.state.end out.old out.new }
    ensures keeps_on { KeepsOn out.old at block done result out.new }
{
    let going = done.going;
    if going {
        return keep(out, at, block, done);
    }
    done
}
