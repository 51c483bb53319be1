// A step of a state ("Steps"): its label, and the threads that act, by the positions of their records in the work bytes and of their
// processes in the model.

// What a step does.
#[derive(Clone, Copy, PartialEq, Eq)]
pub enum Label {
    Output,
    Input,
    Silent,
}

// A thread that acts: where its record stands, the mark of the process that acts, which is in a copy of the thread or is the thread itself,
// and the next private name, all copies on the way being opened. A mark is the position and one more, so that 0 is none.
#[derive(Clone, Copy)]
pub struct Actor {
    pub at: usize,
    pub mark: usize,
    pub next: usize,
}

// Who sends, who takes, and how many bytes the message takes that is sent. In a silent step of one thread, copy is the mark of the repl thread
// whose copies take part, and arity how many of them, one or two; otherwise both are 0.
#[derive(Clone, Copy)]
pub struct Step {
    pub label: Label,
    pub arity: usize,
    pub copy: usize,
    pub sender: Actor,
    pub taker: Actor,
    pub size: usize,
}
