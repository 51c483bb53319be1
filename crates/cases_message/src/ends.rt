// The bound messages of a case, and what is asked of the last of them.
ghost use Rattle.std.specs.Prelude.{◌≤◌};

use crate::print;
use message_binding::bind;
use message_term::work::Worked;
use std::{fmt, io};

// The bytes for bound messages, and the last position at which one more has room: `bind::term` asks for `bind::REACH` bytes.
pub(crate) const SPACE: usize = 16384;

const LAST_START: usize = SPACE - bind::REACH;

// The bound messages: where the last but one begins, where the last begins and ends, and the next private name.
#[derive(Clone, Copy, Default)]
pub(crate) struct Ends {
    before: usize,
    last: usize,
    end: usize,
    names: usize,
}

// Why a step is not taken.
#[derive(Clone, Copy)]
pub(crate) enum Refused {
    NoRoom,
    NoName,
    BytesLeftOver,
    TooLarge,
}

impl fmt::Display for Refused {
    fn fmt<W: fmt::Write>(&self, f: &mut fmt::Formatter<W>) -> fmt::Result {
        f.write_str(match self {
            Refused::NoRoom => "no room",
            Refused::NoName => "no name",
            Refused::BytesLeftOver => "bytes left over",
            Refused::TooLarge => "too large",
        })
    }
}

impl Ends {
    // With the message of one step more: a private name, or a term.
    pub(crate) fn bind(
        self,
        bytes: &[u8],
        is_name: bool,
        m: &mut [u8; SPACE],
    ) -> Result<Ends, Refused> {
        if LAST_START < self.end {
            return Err(Refused::NoRoom);
        }
        if is_name {
            self.bind_name(bytes, m)
        } else {
            self.bind_term(bytes, m)
        }
    }

    // The private name that is written, if any, in one byte or in two, the lower one first; else the next.
    fn bind_name(self, bytes: &[u8], m: &mut [u8; SPACE]) -> Result<Ends, Refused>
        requires { self.end ≤ 12286 }
    {
        let name = match bytes {
            [] => self.names,
            [low] => usize::from(*low),
            [low, high, ..] => usize::from(u16::from_le_bytes([*low, *high])),
        };
        if bind::LAST_NAME < name {
            return Err(Refused::NoName);
        }
        Ok(self.and(bind::name(m, self.end, name), name + 1))
    }

    fn bind_term(self, bytes: &[u8], m: &mut [u8; SPACE]) -> Result<Ends, Refused>
        requires { self.end ≤ 12286 }
    {
        let Worked { next, end } = bind::term(bytes, 0, m, 0, self.end).ok_or(Refused::TooLarge)?;
        if next != bytes.len() {
            return Err(Refused::BytesLeftOver);
        }
        Ok(self.and(end, self.names))
    }

    // With one message more, which ends there, and the next private name.
    fn and(self, end: usize, names: usize) -> Ends {
        Ends {
            before: self.last,
            last: self.end,
            end,
            names,
        }
    }

    // Writes what is asked of the last message or of the last two.
    pub(crate) fn answer(self, rt: &impl Print, m: &[u8], word: u8) -> io::Result<()> {
        let last = message(m, self.last, self.end);
        match word {
            b'e' => print::equal(rt, message(m, self.before, self.last), last),
            b's' => print::size(rt, last),
            _ => {
                print::size(rt, last)?;
                print::nodes(rt, last)
            }
        }
    }
}

// The message between two positions, behind the number of its nodes.
fn message(m: &[u8], from: usize, end: usize) -> &[u8] {
    m.get(from..end)
        .and_then(|entry| entry.get(2..))
        .unwrap_or_default()
}
