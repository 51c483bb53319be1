// Silent steps of single threads, in their copies: repl thread by repl thread, one copy and then two ("Steps").
ghost use Rattle.std.specs.Prelude.{◌+◌, ◌≤◌, length};
ghost use Rattle.buffer.specs.Buffer.{SameLength, WrittenFrom};
ghost use Rattle.step_copies.specs.CopyStep.{NoSilent, Finds, NextInCopies, NextAfterCopies};
ghost use Rattle.index_process.specs.Index.{ShortModel};
ghost use Rattle.state_layout.specs.Layout.{RecordFits, RecordsFit};

use buffer::word;
use index_process::index;
use state_progress::progress;
use state_progress::progress::Progress;
use state_start::loaded;
use state_task::task;
use state_task::task::Task;
use step_copy_pair::meet;
use step_label::step::Step;

// Twice the most repl threads that the copies of one thread have, and one more.
pub const GROUPS: usize = 8193;

// Whether the thread whose record stands at a position surely has no silent step in its copies: they have no output, or no input.
fn no_silent(s: &[u8], at: usize, out: &[u8]) -> bool
    requires { at + 4 ≤ length out.now }
    ensures { NoSilent s.now at out.now result }
{
    let place = word::number(out, at);
    index::last(s, place, true) == 0 || index::last(s, place, false) == 0
}

// The next repl thread of the thread whose record stands at a position, after the one at a mark.
fn find(
    s: &[u8],
    at: usize,
    names: usize,
    to: usize,
    m: &mut [u8],
    copy: usize,
    out: &mut [u8],
) -> Progress
    requires { RecordFits s.now out.old at }
    ensures written_from { WrittenFrom 0 m.old m.new }
    ensures written_from_2 { WrittenFrom to out.old out.new }
    ensures finds { Finds s.now at names to m.old copy out.old result }
{
    loaded::traverse(
        s,
        &task::ANY,
        at,
        m,
        Task::Find(copy, true, names),
        out,
        progress::begin(to, names),
    )
}

// The first silent step of the threads whose records stand from a position to another: of the first thread those in the copies of the repl
// thread at a mark, senders from x on, and of the first sender takers from y on.
#[cycle(searching)]
pub fn copy_step(
    s: &[u8],
    at: usize,
    names: usize,
    to: usize,
    m: &mut [u8],
    copy: usize,
    arity: usize,
    x: usize,
    y: usize,
    left: usize,
    out: &mut [u8],
    message: &mut [u8],
) -> Option<Step>
    requires { RecordsFit s.now out.old to }
    ensures written_from { WrittenFrom 0 m.old m.new }
    ensures written_from_2 { WrittenFrom to out.old out.new }
    ensures same_length { SameLength message.old message.new }
    ensures next_in_copies { NextInCopies s.now at names to m.old copy arity x y left out.old message.old result message.new }
{
    if to <= at {
        return None;
    }
    if to - at < 4 {
        return None;
    }
    if left == 0 {
        return None;
    }
    if copy == 0 {
        return begin(s, at, names, to, m, left - 1, out, message);
    }
    if let Some(step) = meet::meet(s, at, names, to, m, copy, arity, x, y, out, message) {
        return Some(step);
    }
    pass(s, at, names, to, m, copy, arity, left - 1, out, message)
}

// What comes from the first repl thread of the first thread on.
#[cycle(searching)]
fn begin(
    s: &[u8],
    at: usize,
    names: usize,
    to: usize,
    m: &mut [u8],
    left: usize,
    out: &mut [u8],
    message: &mut [u8],
) -> Option<Step>
    requires { (ShortModel s.now) × (at + 4 ≤ to) × (to ≤ length out.old) }
    ensures written_from { WrittenFrom 0 m.old m.new }
    ensures written_from_2 { WrittenFrom to out.old out.new }
    ensures same_length { SameLength message.old message.new }
    ensures next_after_copies { NextAfterCopies s.now at names to m.old 0 2 left out.old message.old result message.new }
{
    if no_silent(s, at, out) {
        let next = at + 4 + word::number(out, at + 2);
        return copy_step(s, next, names, to, m, 0, 2, 0, 0, GROUPS, out, message);
    }
    pass(s, at, names, to, m, 0, 2, left, out, message)
}

// What comes after one copy, or two, of the repl thread at a mark.
#[cycle(searching)]
fn pass(
    s: &[u8],
    at: usize,
    names: usize,
    to: usize,
    m: &mut [u8],
    copy: usize,
    arity: usize,
    left: usize,
    out: &mut [u8],
    message: &mut [u8],
) -> Option<Step>
    requires { (ShortModel s.now) × (at + 4 ≤ to) × (to ≤ length out.old) }
    ensures written_from { WrittenFrom 0 m.old m.new }
    ensures written_from_2 { WrittenFrom to out.old out.new }
    ensures same_length { SameLength message.old message.new }
    ensures next_after_copies { NextAfterCopies s.now at names to m.old copy arity left out.old message.old result message.new }
{
    if arity == 1 {
        return copy_step(s, at, names, to, m, copy, 2, 0, 0, left, out, message);
    }
    let next = at + 4 + word::number(out, at + 2);
    let found = find(s, at, names, to, m, copy, out);
    let going = found.going;
    if going {
        return copy_step(s, next, names, to, m, 0, 2, 0, 0, GROUPS, out, message);
    }
    copy_step(s, at, names, to, m, found.mark, 1, 0, 0, left, out, message)
}
