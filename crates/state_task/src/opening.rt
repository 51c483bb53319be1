// What is done at a repl thread, as data: its copies that are opened, and what becomes of the thread itself ("Steps").
use crate::task::Task;

// A copy that is opened for a task at a private name: its names are counted first, since copies inside it open after them; or it is one that
// was opened before, and the task says where copies inside it open.
#[derive(Clone, Copy)]
pub enum Opening {
    None,
    Copy(Task, usize),
    Again(Task, usize),
}

// What is done with the repl thread itself: nothing; it is written before its copies are opened, or after; or it is found, if the traversal still
// goes on, copies opening at a private name.
#[derive(Clone, Copy)]
pub enum Own {
    Passed,
    Before,
    After,
    Found(usize),
}

// What is done with the repl thread, and its copies that are opened, one after the other.
#[derive(Clone, Copy)]
pub struct Copies {
    pub own: Own,
    pub first: Opening,
    pub second: Opening,
}
