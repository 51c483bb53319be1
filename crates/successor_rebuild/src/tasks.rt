// What a step does to the threads that act ("Steps").
ghost use Rattle.std.specs.Prelude.{◌≡◌};
ghost use Rattle.successor_rebuild.specs.Tasks.{plan, tasks_of, silent_tasks, sends};

use state_task::task::{Plan, Task};
use step_label::step::{Label, Step};
use successor_continuation::names;

// What is done to the two threads whose records stand at the positions first and second. If they are the same, the first task is done.
#[derive(Clone, Copy)]
pub struct Tasks {
    pub first: usize,
    pub task: Task,
    pub second: usize,
    pub other: Task,
}

// A plan in which nobody acts.
fn still() -> Plan
    ensures { result ≡ plan 0 0 0 0 0 }
{
    Plan {
        sender: 0,
        taker: 0,
        second: 0,
        rest: 0,
        last: 0,
    }
}

// A plan in which a sender acts alone, or a taker: its mark, and the private name at which its rest is settled.
fn sending(mark: usize, rest: usize) -> Plan
    ensures { result ≡ plan mark 0 0 rest 0 }
{
    Plan {
        sender: mark,
        rest,
        ..still()
    }
}

fn taking(mark: usize, rest: usize) -> Plan
    ensures { result ≡ plan 0 mark 0 0 rest }
{
    Plan {
        taker: mark,
        last: rest,
        ..still()
    }
}

// The tasks of a silent step: of two threads, or of the copies of one.
fn assign_silent(step: Step, last: usize, names: usize) -> Tasks
    ensures { result ≡ silent_tasks step last names }
{
    let sender = step.sender;
    let taker = step.taker;
    let arity = step.arity;
    if arity == 0 {
        return Tasks {
            first: sender.at,
            task: Task::Build(sending(sender.mark, taker.next), names),
            second: taker.at,
            other: Task::Build(taking(taker.mark, last), sender.next),
        };
    }
    let both = Plan {
        sender: sender.mark,
        taker: taker.mark,
        second: sender.next,
        rest: taker.next,
        last,
    };
    Tasks {
        first: sender.at,
        task: Task::BuildIn(both, names::copies(step), names),
        second: sender.at,
        other: Task::Build(still(), names),
    }
}

// The tasks of a step.
pub fn assign(step: Step, last: usize, names: usize) -> Tasks
    ensures { result ≡ tasks_of step last names }
{
    let sender = step.sender;
    let taker = step.taker;
    let label = step.label;
    match label {
        Label::Output => Tasks {
            first: sender.at,
            task: Task::Build(sending(sender.mark, sender.next), names),
            second: sender.at,
            other: Task::Build(still(), names),
        },
        Label::Input => Tasks {
            first: taker.at,
            task: Task::Build(taking(taker.mark, taker.next), names),
            second: taker.at,
            other: Task::Build(still(), names),
        },
        Label::Silent => assign_silent(step, last, names),
    }
}

// Whether the message of a step becomes an alias.
pub fn sends(label: Label) -> bool
    ensures { result ≡ sends label }
{
    label == Label::Output
}
