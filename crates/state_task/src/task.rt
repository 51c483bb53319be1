// What a traversal does at each thread that it comes to ("Steps"). Positions of processes are given as marks: the position and one more, so that
// 0 is none.
ghost use Rattle.std.specs.Prelude.{◌≡◌};
ghost use Rattle.state_task.specs.Machine.{opening, sending, taking};

// An offer that is looked for: an output or an input, on any channel or on the one that is the traversal's argument, at the position from or
// after it, in no thread that has the position of the mark excluded in it.
#[derive(Clone, Copy)]
pub struct Quest {
    pub output: bool,
    pub any: bool,
    pub from: usize,
    pub excluded: usize,
}

// The argument of a traversal that asks for no message in particular: the run of the public name 0.
pub const ANY: [u8; 2] = [16, 0];

// A repl thread, by its mark, and how many of its copies take part in the step so far, which says where an offer is sought: in the first copy
// (0), in the same copy once more (1), or in a second one (2), which opens at a private name, as copies inside the same one do.
#[derive(Clone, Copy)]
pub struct CopyAt {
    pub place: usize,
    pub arity: usize,
    pub second: usize,
}

// The threads that act, by their marks, with the private names at which the taker's copies open, and at which what follows the sender and
// what follows the taker is settled.
#[derive(Clone, Copy)]
pub struct Plan {
    pub sender: usize,
    pub taker: usize,
    pub second: usize,
    pub rest: usize,
    pub last: usize,
}

// What is done at each thread. The number that stands last is the private name at which copies open.
#[derive(Clone, Copy)]
pub enum Task {
    // Nothing, so that names alone are counted. It is there for the definitions: the code counts names by itself.
    Count,
    // The limits of what the thread offers are judged, copies included.
    Judge(usize),
    // The thread is written into the state, and judged.
    Settle,
    // An offer is sought in the threads, copies included.
    Seek(Quest, usize),
    // An offer is sought in the copies of one repl thread.
    SeekIn(Quest, CopyAt, usize),
    // The next repl thread is found, those in copies of it before itself: the one at a mark, or, if the test says so, the first one after it.
    Find(usize, bool, usize),
    // The threads are written as a step leaves them.
    Build(Plan, usize),
    // The threads are written as a silent step in the copies of one repl thread leaves them.
    BuildIn(Plan, CopyAt, usize),
}

// The task inside a copy, where copies open at another name.
pub fn opening(task: Task, names: usize) -> Task
    ensures { result ≡ opening task names }
{
    match task {
        Task::Count => Task::Count,
        Task::Judge(_) => Task::Judge(names),
        Task::Settle => Task::Settle,
        Task::Seek(quest, _) => Task::Seek(quest, names),
        Task::SeekIn(quest, copy, _) => Task::SeekIn(quest, copy, names),
        Task::Find(mark, past, _) => Task::Find(mark, past, names),
        Task::Build(plan, _) => Task::Build(plan, names),
        Task::BuildIn(plan, copy, _) => Task::BuildIn(plan, copy, names),
    }
}

// The plan of the sender alone, and of the taker alone.
pub fn sending(plan: Plan) -> Plan
    ensures { result ≡ sending plan }
{
    Plan { taker: 0, ..plan }
}

pub fn taking(plan: Plan) -> Plan
    ensures { result ≡ taking plan }
{
    Plan { sender: 0, ..plan }
}
