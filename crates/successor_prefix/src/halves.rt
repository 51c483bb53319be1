// The threads before one and those behind it, as two blocks ("Steps"). The shorter one is measured; what the other has is the rest of what the
// state has.
ghost use Rattle.std.specs.Prelude.{◌≤◌, length};
ghost use Rattle.successor_prefix.specs.Halves.{Rest, Halve};

use successor_rebuild::block;
use successor_rebuild::block::Block;

// The two blocks.
#[derive(Clone, Copy)]
pub struct Halves {
    pub before: Block,
    pub behind: Block,
}

// A block that ends at a position, with what is left of so many threads and nodes without those of another one. More is taken off than
// there is only where no such records stand.
fn rest(end: usize, threads: usize, nodes: usize, other: Block) -> Block
    ensures { Rest end threads nodes other result }
{
    if threads < other.threads {
        return Block {
            end: end,
            threads: 0,
            nodes: 0,
        };
    }
    if nodes < other.nodes {
        return Block {
            end: end,
            threads: 0,
            nodes: 0,
        };
    }
    Block {
        end: end,
        threads: threads - other.threads,
        nodes: nodes - other.nodes,
    }
}

// The records from a position to another but for one, which stands from at to next; they are so many threads, with so many nodes.
pub fn halve(
    out: &[u8],
    start: usize,
    at: usize,
    next: usize,
    end: usize,
    threads: usize,
    nodes: usize,
) -> Halves
    requires { (start ≤ at) × (at ≤ next) × (next ≤ end) × (end ≤ length out.now) }
    ensures start_le_end { (start ≤ result.before.end) × (next ≤ result.behind.end) }
    ensures halve { Halve out.now start at next end threads nodes result }
{
    if at - start <= end - next {
        let before = block::measure(out, start, at, at, at);
        return Halves {
            before: before,
            behind: rest(end, threads, nodes, before),
        };
    }
    let behind = block::measure(out, next, end, end, end);
    Halves {
        before: rest(at, threads, nodes, behind),
        behind: behind,
    }
}
