// The kinds of terms by document 01's numbers ("Bytes").
ghost use Rattle.decode_layout.specs.Kind.{IsTerm};

use crate::unknown_kind::UnknownKind;

#[derive(Clone, Copy, PartialEq, Eq)]
pub enum TermKind {
    Name,
    Variable,
    Pair,
    Fst,
    Snd,
    Enc,
    Dec,
    Mac,
}

impl TryFrom<u8> for TermKind {
    type Error = UnknownKind;

    ghost try_from_gives = { IsTerm };

    fn try_from(number: u8) -> Result<TermKind, UnknownKind> {
        match number {
            0 => Ok(TermKind::Name),
            1 => Ok(TermKind::Variable),
            2 => Ok(TermKind::Pair),
            3 => Ok(TermKind::Fst),
            4 => Ok(TermKind::Snd),
            5 => Ok(TermKind::Enc),
            6 => Ok(TermKind::Dec),
            7 => Ok(TermKind::Mac),
            _ => Err(UnknownKind(number)),
        }
    }
}

// The numbers of kinds as they stand in the nodes of messages, two bytes each.
pub const NAME: usize = 0;

pub const PAIR: usize = 2;

pub const FST: usize = 3;

pub const ENC: usize = 5;

pub const DEC: usize = 6;
