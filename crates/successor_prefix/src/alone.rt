// The state that an output or an input of a thread leads to that acts itself ("Steps"): what follows it is settled in its place, and the
// others stay as they are.
ghost use Rattle.std.specs.Prelude.{◌≡◌, ◌+◌, ◌-◌, ◌≤◌, length};
ghost use Rattle.buffer.specs.Buffer.{WrittenFrom};
ghost use Rattle.state_progress.specs.Progress.{Extends};
ghost use Rattle.successor_prefix.specs.Alone.{ContinuesThread, Replaces, sent_nodes, Others, Around, LeadsUntil, LeadsAlone};
ghost use Rattle.index_process.specs.Index.{ShortModel};
ghost use Rattle.state_layout.specs.Layout.{RecordsFit, StateFits};

use crate::halves;
use crate::halves::Halves;
use buffer::word;
use state_progress::progress;
use state_progress::progress::Progress;
use state_record::record;
use state_record::state::State;
use state_start::form;
use step_label::step::Actor;
use successor_continuation::rest;
use successor_frame::aliases;
use successor_rebuild::block;

// What follows the thread of a state whose record stands at a position.
fn follow(
    s: &[u8],
    to: usize,
    at: usize,
    message: &[u8],
    m: &mut [u8],
    out: &mut [u8],
    done: Progress,
) -> Progress
    requires { RecordsFit s.now out.old to }
    ensures extends { Extends done result }
    ensures written_from { WrittenFrom 0 m.old m.new }
    ensures written_from_2 { WrittenFrom done.state.end out.old out.new }
    ensures continues_thread { ContinuesThread s.now to at message.now m.old out.old done result out.new }
{
    let going = done.going;
    if !going {
        return done;
    }
    if to < 4 {
        return progress::stop(done);
    }
    if to - 4 < at {
        return progress::stop(done);
    }
    rest::rest(s, message, at, m, out, done)
}

// The two blocks around a thread and what follows it, written one after the other.
fn replace(
    s: &[u8],
    state: State,
    at: usize,
    next: usize,
    halves: Halves,
    message: &[u8],
    m: &mut [u8],
    out: &mut [u8],
    done: Progress,
) -> Progress
    requires { (ShortModel s.now) × (state.end ≤ length out.old) × (state.start ≤ halves.before.end) × (next ≤ halves.behind.end) }
    ensures extends { Extends done result }
    ensures written_from { WrittenFrom 0 m.old m.new }
    ensures written_from_2 { WrittenFrom done.state.end out.old out.new }
    ensures replaces { Replaces s.now state at next halves message.now m.old out.old done result out.new }
{
    let start = state.start;
    let end = state.end;
    let before = block::again(out, start, halves.before, done);
    let there = follow(s, end, at, message, m, out, before);
    block::again(out, next, halves.behind, there)
}

// The nodes of a message of so many bytes, if it is sent.
fn sent_nodes(sends: bool, size: usize) -> usize
    ensures { result ≡ sent_nodes sends size }
{
    if sends { size / 2 } else { 0 }
}

// How many nodes the threads of a state have besides one, whose messages have so many; the next state has begun with the aliases and, if one
// is sent, a message of so many bytes.
fn others(state: State, sends: bool, size: usize, begun: Progress, own: usize) -> usize
    ensures { Others state sends size begun own result }
{
    let fresh = begun.state;
    let sent = sent_nodes(sends, size);
    if fresh.nodes < sent {
        return 0;
    }
    let aliases = fresh.nodes - sent;
    if state.nodes < aliases {
        return 0;
    }
    if state.nodes - aliases < own {
        return 0;
    }
    state.nodes - aliases - own
}

// The blocks around the thread whose record stands from a position to another. The next state has begun.
fn around(
    out: &[u8],
    state: State,
    at: usize,
    next: usize,
    sends: bool,
    size: usize,
    begun: Progress,
) -> Halves
    requires { (state.start ≤ at) × (at + 4 ≤ next) × (next ≤ state.end) × (state.end ≤ length out.now) }
    ensures start_le_end { (state.start ≤ result.before.end) × (next ≤ result.behind.end) }
    ensures around { Around out.now state at next sends size begun result }
{
    let own = record::nodes(&out[at + 4..next]);
    let nodes = others(state, sends, size, begun, own);
    let threads = state.threads.saturating_sub(1);
    halves::halve(out, state.start, at, next, state.end, threads, nodes)
}

// The state that an output leads to, which sends a message, or an input. The record of its thread ends at a position.
fn begin(
    s: &[u8],
    state: State,
    sends: bool,
    actor: Actor,
    next: usize,
    message: &[u8],
    m: &mut [u8],
    out: &mut [u8],
) -> Option<State>
    requires { (ShortModel s.now) × (state.end ≤ length out.old) × (state.start ≤ actor.at) × (actor.at + 4 ≤ next) × (next ≤ state.end) }
    ensures written_from { WrittenFrom 0 m.old m.new }
    ensures written_from_2 { WrittenFrom state.end out.old out.new }
    ensures leads_until { LeadsUntil s.now state sends actor next message.now m.old out.old result out.new }
{
    let at = actor.at;
    let begun = aliases::carry(state, sends, message, actor.next, out);
    let halves = around(out, state, at, next, sends, message.len(), begun);
    form::finish(replace(s, state, at, next, halves, message, m, out, begun))
}

// The same, with its end found.
pub fn form(
    s: &[u8],
    state: State,
    sends: bool,
    actor: Actor,
    message: &[u8],
    m: &mut [u8],
    out: &mut [u8],
) -> Option<State>
    requires { StateFits s.now out.old state }
    ensures written_from { WrittenFrom 0 m.old m.new }
    ensures written_from_2 { WrittenFrom state.end out.old out.new }
    ensures leads_alone { LeadsAlone s.now state sends actor message.now m.old out.old result out.new }
{
    let at = actor.at;
    if at < state.start {
        return None;
    }
    if state.end < 4 {
        return None;
    }
    if state.end - 4 < at {
        return None;
    }
    let next = at + 4 + word::number(out, at + 2);
    if state.end < next {
        return None;
    }
    begin(s, state, sends, actor, next, message, m, out)
}
