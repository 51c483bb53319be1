// The bytes that messages and states are put into.
use state_head::head;

// The bytes of states and of what is kept beside them.
const STATES: usize = 65536;

#[derive(Drop)]
pub(crate) struct Space {
    pub(crate) m: [u8; head::BOUND],
    pub(crate) out: [u8; STATES],
}

impl Space {
    pub(crate) fn new() -> Space {
        Space {
            m: [0; head::BOUND],
            out: [0; STATES],
        }
    }
}
