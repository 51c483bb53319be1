// The labels of a case followed, level by level: how many steps each has, and the states that they lead to.
ghost use Rattle.std.specs.Prelude.{◌≤◌, ◌<◌, length};

use crate::ask::Steps;
use crate::space::Space;
use crate::{label, print};
use index_process::index;
use message_bytes::run;
use state_record::state::State;
use state_start::form;
use std::io;
use step_label::step::Label;

// The most levels.
const LEVELS: usize = 16;

// A case: its model with its index, and its labels.
#[derive(Drop)]
pub(crate) struct Case<'a> {
    s: &'a [u8; index::LENGTH],
    labels: &'a [u8],
}

// A level of labels: how many stand before it, where its labels begin, and how many aliases there are at its states.
#[derive(Clone, Copy)]
struct Level {
    number: usize,
    at: usize,
    known: usize,
}

impl<'a> Case<'a> {
    pub(crate) fn new(s: &'a [u8; index::LENGTH], labels: &'a [u8]) -> Case<'a> {
        Case { s, labels }
    }

    // Writes the start state, and follows the labels from it.
    pub(crate) fn start(&self, rt: &impl Print, space: &mut Space) -> io::Result<()> {
        let first = Level {
            number: 0,
            at: 0,
            known: 0,
        };
        let s = self.s;
        let formed = form::start(s, &mut space.m, &mut space.out, 0);
        self.arrive(rt, first, formed, space)
    }

    // Writes the state that a step leads to, or the start state, and follows the labels of a level there.
    #[cycle(following)]
    fn arrive(
        &self,
        rt: &impl Print,
        level: Level,
        formed: Option<State>,
        space: &mut Space,
    ) -> io::Result<()>
        requires { level.number ≤ 16 }
    {
        let Some(state) = formed else {
            return print::over(rt, 2 * level.number);
        };
        print::state(rt, state, level.known, 2 * level.number)?;
        self.follow(rt, level, state, space)
    }

    // Follows the labels of a level at a state.
    #[cycle(following)]
    fn follow(
        &self,
        rt: &impl Print,
        level: Level,
        state: State,
        space: &mut Space,
    ) -> io::Result<()>
        requires { level.number ≤ 16 }
    {
        if level.number == LEVELS || self.labels.len() < level.at {
            return Ok(());
        }
        let end = label::level_end(self.labels, level.at);
        let below = Level {
            number: level.number + 1,
            at: end + 1,
            known: level.known,
        };
        let mut at = level.at;
        while at < end {
            self.follow_label(rt, at, below, state, space)?;
            at += label::width(self.labels[at]);
        }
        Ok(())
    }

    // Writes the label at a position, and how many steps it has at a state, and follows them to the level below.
    #[cycle(following)]
    fn follow_label(
        &self,
        rt: &impl Print,
        at: usize,
        below: Level,
        state: State,
        space: &mut Space,
    ) -> io::Result<()>
        requires { (0 < below.number) × (below.number ≤ 16) × (at < length self.now.labels.now) }
    {
        let kind = label::kind(self.labels[at]);
        let mut channel = [0u8; run::LENGTH];
        let mut taken = [0u8; run::LENGTH];
        let c = label::channel(self.labels, at, state, space, &mut channel);
        let t = label::taken(self.labels, at, state, space, &mut taken);
        let channel = &channel[..c];
        let count = Steps::new(state, kind, channel).count(self.s, space);
        print::label(rt, self.labels, at, 2 * below.number - 1, count)?;
        let known = more(kind, below.known);
        let steps = Steps::new(state, kind, channel);
        self.follow_steps(
            rt,
            Level { known, ..below },
            steps,
            count,
            &taken[..t],
            space,
        )
    }

    // Follows so many steps, which lead to a level; an input takes that message.
    #[cycle(following)]
    fn follow_steps(
        &self,
        rt: &impl Print,
        level: Level,
        mut steps: Steps,
        count: usize,
        taken: &[u8],
        space: &mut Space,
    ) -> io::Result<()>
        requires { level.number ≤ 16 }
    {
        for _ in 0..count {
            if let Some(formed) = steps.lead(self.s, taken, space) {
                self.arrive(rt, level, formed, space)?;
            }
        }
        Ok(())
    }
}

// How many aliases there are after a step of a kind. Before the last level there are fewer than levels, so the remainder changes nothing.
fn more(kind: Label, known: usize) -> usize {
    match kind {
        Label::Output => known % LEVELS + 1,
        _ => known,
    }
}
