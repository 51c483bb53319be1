// The three slices that the lines so far have given.
ghost use Rattle.std.specs.Prelude.{◌≤◌};

use crate::run;
use cases_text::spell;
use std::io;

// The bytes that there are for a slice: more than the 4,096 that one may have.
const SPACE: usize = 4300;

// A slice, at the front of its bytes.
#[derive(Clone, Copy)]
struct Slice {
    bytes: [u8; SPACE],
    len: usize,
    ghost fits: { len ≤ 4300 },
}

impl Slice {
    const EMPTY: Slice = Slice {
        bytes: [0; SPACE],
        len: 0,
    };

    // Becomes the slice that a text spells, where it stands: no other bytes are cleared or copied.
    fn spell(&mut self, text: &[u8]) {
        self.len = spell::spell(text, &mut self.bytes);
    }

    fn get(&self) -> &[u8] {
        &self.bytes[..self.len]
    }
}

#[derive(Drop)]
pub(crate) struct Given {
    first: Slice,
    second: Slice,
    formula: Slice,
}

impl Given {
    // Three empty slices.
    pub(crate) fn nothing() -> Given {
        Given {
            first: Slice::EMPTY,
            second: Slice::EMPTY,
            formula: Slice::EMPTY,
        }
    }

    // The first letter says what the line gives, or that it is a case, whose answer is written.
    pub(crate) fn take(&mut self, rt: &impl Print, line: &[u8]) -> io::Result<()> {
        match line {
            [b'1', text @ ..] => self.first.spell(text),
            [b'2', text @ ..] => self.second.spell(text),
            [b'f', text @ ..] => self.formula.spell(text),
            [b'w', text @ ..] => {
                run::run(
                    rt,
                    text,
                    self.first.get(),
                    self.second.get(),
                    self.formula.get(),
                )?;
            }
            _ => {}
        }
        Ok(())
    }
}
