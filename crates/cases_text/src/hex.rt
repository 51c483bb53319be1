// The bytes that digits spell, two to a byte.
ghost use Rattle.std.specs.Prelude.{◌≤◌, length};

use crate::text;

// Puts the bytes that the digits of a text spell at the start of out, and answers how many there are. Other characters are passed over;
// bytes that do not fit, and a last digit alone, are dropped.
pub fn spell(digits: &[u8], out: &mut [u8]) -> usize
    ensures { result ≤ length out.old }
{
    let mut half = Half::default();
    let mut len = 0;
    for c in digits {
        if let Some(byte) = half.take(*c) {
            len = put(byte, len, out);
        }
    }
    len
}

// The first digit of a byte, if one was read.
#[derive(Clone, Copy, Default)]
pub(crate) struct Half {
    high: Option<u8>,
}

impl Half {
    // The byte whose second digit a character is, if it is one.
    pub(crate) fn take(&mut self, c: u8) -> Option<u8> {
        let digit = text::digit(c)?;
        match self.high {
            None => {
                self.high = Some(digit);
                None
            }
            Some(high) => {
                self.high = None;
                Some(high << 4 | digit)
            }
        }
    }
}

// Puts a byte behind so many others, if it fits, and answers how many there are then.
pub(crate) fn put(byte: u8, len: usize, out: &mut [u8]) -> usize
    requires { len ≤ length out.old }
    ensures { result ≤ length out.old }
{
    if len < out.len() {
        out[len] = byte;
        len + 1
    } else {
        len
    }
}
