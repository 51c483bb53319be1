// What a traversal has come to ("Steps").
ghost use Rattle.std.specs.Prelude.{◌<◌};
ghost use Rattle.state_progress.specs.Progress.{Stopped, Renamed, Hits, Begins};

use state_record::state::State;

// Whether it goes on; the next private name; and the state that is being written. A traversal that has found what it seeks goes no further:
// then names is the next private name with all copies on the way opened, mark is that of the thread, and the messages that it hands over
// stand in the work bytes from sent to the end of the state. A traversal that met a limit has the mark 0.
#[derive(Clone, Copy)]
pub struct Progress {
    pub going: bool,
    pub names: usize,
    pub mark: usize,
    pub sent: usize,
    pub state: State,
}

// A limit was met.
pub fn stop(done: Progress) -> Progress
    ensures { Stopped done result }
{
    let state = done.state;
    Progress {
        going: false,
        names: done.names,
        mark: 0,
        sent: 0,
        state: state,
    }
}

// The same, with another next private name, if the traversal goes on.
pub fn named(done: Progress, names: usize) -> Progress
    ensures { Renamed done names result }
{
    let state = done.state;
    let going = done.going;
    if going {
        return Progress {
            going: true,
            names: names,
            mark: 0,
            sent: 0,
            state: state,
        };
    }
    done
}

// The thread at a position was found, and hands over nothing.
pub fn hit(done: Progress, at: usize, names: usize) -> Progress
    requires { at < 36864 }
    ensures { Hits done at names result }
{
    let state = done.state;
    let end = state.end;
    Progress {
        going: false,
        names: names,
        mark: at + 1,
        sent: end,
        state: state,
    }
}

// A traversal that has come to nothing yet: what it writes stands from a position on.
pub fn begin(at: usize, names: usize) -> Progress
    ensures { Begins at names result }
{
    Progress {
        going: true,
        names: names,
        mark: 0,
        sent: 0,
        state: State::fresh(at, at, 0),
    }
}
