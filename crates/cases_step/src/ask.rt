// Steps asked of the library: the next one of a label, how many there are, and where one leads.
ghost use Rattle.std.specs.Prelude.{◌≤◌};

use crate::space::Space;
use index_process::index;
use message_bytes::run;
use state_record::state::State;
use step_label::step::{Label, Step};
use step_next::next;
use successor_state::lead;

// The most steps of a label that are counted.
const STEPS: usize = 4096;

// The steps of a label at a state, one after the other: the last one so far, the channel's run, and what stays from one step to the next,
// the channel of a silent step of two threads and the message that is sent, each at the front of its bytes.
#[derive(Drop)]
pub(crate) struct Steps<'a> {
    state: State,
    step: Step,
    channel: &'a [u8],
    buffered: [u8; run::LENGTH],
    message: [u8; run::LENGTH],
}

impl<'a> Steps<'a> {
    // Before the first one.
    pub(crate) fn new(state: State, kind: Label, channel: &'a [u8]) -> Steps<'a> {
        Steps {
            state,
            step: next::before(kind, state),
            channel,
            buffered: [0; run::LENGTH],
            message: [0; run::LENGTH],
        }
    }

    // How many there are.
    pub(crate) fn count(&mut self, s: &[u8; index::LENGTH], space: &mut Space) -> usize
        ensures { result ≤ 4096 }
    {
        for n in 0..STEPS {
            if self.next(s, space).is_none() {
                return n;
            }
        }
        STEPS
    }

    // The next one.
    fn next(&mut self, s: &[u8; index::LENGTH], space: &mut Space) -> Option<Step> {
        if space.out.len() < self.state.end {
            return None;
        }
        let found = next::next(
            s,
            self.state,
            self.step,
            self.channel,
            &mut space.m,
            &mut space.out,
            &mut self.buffered,
            &mut self.message,
        )?;
        self.step = found;
        Some(found)
    }

    // Where the next one leads, whose label has that message if it is an input; to no state if that is over a limit.
    pub(crate) fn lead(
        &mut self,
        s: &[u8; index::LENGTH],
        taken: &[u8],
        space: &mut Space,
    ) -> Option<Option<State>> {
        let step = self.next(s, space)?;
        match step.label {
            Label::Input => led(s, self.state, step, taken, space),
            _ => {
                let sent = self.message.get(..step.size).unwrap_or_default();
                led(s, self.state, step, sent, space)
            }
        }
    }
}

// Where a step leads, whose message is given; to no state if that is over a limit.
fn led(
    s: &[u8; index::LENGTH],
    state: State,
    step: Step,
    message: &[u8],
    space: &mut Space,
) -> Option<Option<State>> {
    if space.out.len() < state.end {
        return None;
    }
    Some(lead::lead(s, state, step, message, false, &mut space.m, &mut space.out))
}
