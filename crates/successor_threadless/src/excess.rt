// How many threads and nodes the copies that a step opens add to a state at most ("Steps"; "Judging and its count").
ghost use Rattle.std.specs.Prelude.{◌≡◌, ◌*◌, ◌≤◌, ◌<◌, length};
ghost use Rattle.successor_threadless.specs.Excess.{Copies, Opens, Sums, Adds};
ghost use Rattle.state_layout.specs.Layout.{RecordsFit, StateFits};

use buffer::word;
use index_process::index;
use state_record::state::State;
use step_label::step::{Label, Step};
use successor_rebuild::kind;

// So many threads and nodes; if the threads are more than a state may have, nothing is said.
#[derive(Clone, Copy)]
pub struct Excess {
    pub threads: usize,
    pub nodes: usize,
}

// Nothing is said.
fn open() -> Excess
    ensures { 32 < result.threads }
{
    Excess {
        threads: State::THREADS + 1,
        nodes: 0,
    }
}

// So many threads with so many nodes each.
fn nodes(threads: usize, each: usize) -> usize
    requires { (threads ≤ 255) × (each ≤ 65535) }
    ensures { result ≡ threads * each }
{
    threads * each
}

// What a process that may grow so far adds, opened under messages of so many bytes.
fn copied(growth: usize, size: usize) -> Excess
    requires { (growth ≤ 255) × (size < 65536) }
    ensures { Copies growth size result }
{
    Excess {
        threads: growth,
        nodes: nodes(growth, size / 2 + growth),
    }
}

// What the thread of a state adds whose record stands at a position, besides what follows the process that acts in it: nothing if it acts
// itself.
fn of_thread(s: &[u8], to: usize, at: usize, out: &[u8]) -> Excess
    requires { RecordsFit s.now out.now to }
    ensures { Opens s.now to at out.now result }
{
    if kind::acts(s, to, at, out) {
        return Excess {
            threads: 0,
            nodes: 0,
        };
    }
    if to < 4 {
        return open();
    }
    if to - 4 < at {
        return open();
    }
    copied(
        index::growth(s, word::number(out, at)),
        word::number(out, at + 2),
    )
}

// Two of these together.
fn sum(first: Excess, second: Excess) -> Excess
    ensures { Sums first second result }
{
    if State::THREADS < first.threads {
        return open();
    }
    if State::THREADS < second.threads {
        return open();
    }
    if State::NODES < first.nodes {
        return open();
    }
    if State::NODES < second.nodes {
        return open();
    }
    Excess {
        threads: first.threads + second.threads,
        nodes: first.nodes + second.nodes,
    }
}

// What a step adds; one in the copies of one thread adds three times what the thread does.
pub fn of_step(s: &[u8], state: State, step: Step, out: &[u8]) -> Excess
    requires { StateFits s.now out.now state }
    ensures { Adds s.now state step out.now result }
{
    let label = step.label;
    let sender = step.sender;
    let taker = step.taker;
    let arity = step.arity;
    let end = state.end;
    match label {
        Label::Output => of_thread(s, end, sender.at, out),
        Label::Input => of_thread(s, end, taker.at, out),
        Label::Silent => {
            let one = of_thread(s, end, sender.at, out);
            if arity == 0 {
                return sum(one, of_thread(s, end, taker.at, out));
            }
            sum(one, sum(one, one))
        }
    }
}
