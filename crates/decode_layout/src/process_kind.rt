// The kinds of processes by document 01's numbers ("Bytes").
ghost use Rattle.decode_layout.specs.Kind.{IsProcess};

use crate::unknown_kind::UnknownKind;

#[derive(Clone, Copy, PartialEq, Eq)]
pub enum ProcessKind {
    Nil,
    New,
    Output,
    Input,
    If,
    Let,
    Par,
    Repl,
}

impl TryFrom<u8> for ProcessKind {
    type Error = UnknownKind;

    ghost try_from_gives = { IsProcess };

    fn try_from(number: u8) -> Result<ProcessKind, UnknownKind> {
        match number {
            0 => Ok(ProcessKind::Nil),
            1 => Ok(ProcessKind::New),
            2 => Ok(ProcessKind::Output),
            3 => Ok(ProcessKind::Input),
            4 => Ok(ProcessKind::If),
            5 => Ok(ProcessKind::Let),
            6 => Ok(ProcessKind::Par),
            7 => Ok(ProcessKind::Repl),
            _ => Err(UnknownKind(number)),
        }
    }
}

// The number of an output, for those who are told the number of a kind.
pub const OUTPUT: usize = 2;
