// The state that is being written: its limits, its records, and how full it is ("Judging and its count").
ghost use Rattle.std.specs.Prelude.{◌≡◌};
ghost use Rattle.state_record.specs.Room.{fresh_state, Grows};

// Where the messages of its aliases begin in the work bytes, where the records of its threads begin and end, how many threads they are, how
// many nodes all these messages have, and the next private name.
#[derive(Clone, Copy)]
pub struct State {
    pub aliases: usize,
    pub start: usize,
    pub end: usize,
    pub threads: usize,
    pub nodes: usize,
    pub names: usize,
}

impl State {
    // The most threads, private names and nodes of a state.
    pub const THREADS: usize = 32;

    pub const NAMES: usize = 128;

    pub const NODES: usize = 1024;

    // The most bytes that the messages of one thread take: 12 variables and 1,024 nodes.
    pub(crate) const BOUND: usize = 2072;

    // A state without threads and names, whose aliases begin at a position and end where its records are to stand, and have so many nodes.
    pub fn fresh(aliases: usize, start: usize, nodes: usize) -> State
        ensures { result ≡ fresh_state aliases start nodes }
    {
        State {
            aliases,
            start,
            end: start,
            threads: 0,
            nodes,
            names: 0,
        }
    }
}

// The state with the record of one thread more, whose messages have so many nodes and take so many bytes, in work bytes of a length; none
// where that would be over a limit.
pub fn grow(state: State, nodes: usize, size: usize, long: usize) -> Option<State>
    ensures { Grows state nodes size long result }
{
    if State::THREADS <= state.threads {
        return None;
    }
    if State::NODES < state.nodes {
        return None;
    }
    if State::NODES - state.nodes < nodes {
        return None;
    }
    if State::BOUND < size {
        return None;
    }
    if long < state.end {
        return None;
    }
    if long - state.end < 4 + size {
        return None;
    }
    Some(State {
        end: state.end + 4 + size,
        threads: state.threads + 1,
        nodes: state.nodes + nodes,
        ..state
    })
}
