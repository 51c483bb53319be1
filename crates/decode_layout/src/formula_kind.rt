// The kinds of formulas by document 01's numbers ("Bytes"). Those from Output on are step formulas.
ghost use Rattle.decode_layout.specs.Kind.{IsFormula};

use crate::unknown_kind::UnknownKind;

#[derive(Clone, Copy, PartialEq, Eq)]
pub enum FormulaKind {
    Equal,
    Not,
    And,
    Output,
    Input,
    Silent,
}

impl TryFrom<u8> for FormulaKind {
    type Error = UnknownKind;

    ghost try_from_gives = { IsFormula };

    fn try_from(number: u8) -> Result<FormulaKind, UnknownKind> {
        match number {
            0 => Ok(FormulaKind::Equal),
            1 => Ok(FormulaKind::Not),
            2 => Ok(FormulaKind::And),
            3 => Ok(FormulaKind::Output),
            4 => Ok(FormulaKind::Input),
            5 => Ok(FormulaKind::Silent),
            _ => Err(UnknownKind(number)),
        }
    }
}

// The number of an output step: those from it on are step formulas.
pub const OUTPUT: usize = 3;
