// The bytes that a line spells: two digits to a byte, and `[07 00]12 ` for twelve copies.
ghost use Rattle.std.specs.Prelude.{◌≤◌, length};

use crate::hex;
use crate::hex::Half;

// Puts the slice that the text stands for at the start of out, and answers its length. Bytes that do not fit are dropped.
pub fn spell(text: &[u8], out: &mut [u8]) -> usize
    ensures { result ≤ length out.old }
{
    let mut made = Made::default();
    for c in text {
        made.take(*c, out);
    }
    made.take(b' ', out);
    made.len
}

// What has been made of a text: so many bytes, where the last bracket opened, the first digit of a further byte, if it has one, and the
// number of copies so far, if one is being read.
#[derive(Clone, Copy, Default)]
struct Made {
    len: usize,
    start: usize,
    half: Half,
    times: Option<u16>,
}

impl Made {
    // With one character more.
    fn take(&mut self, c: u8, out: &mut [u8])
        requires { self.old.len ≤ length out.old }
        ensures { self.new.len ≤ length out.old }
    {
        match (self.times, c) {
            (Some(times), b'0'..=b'9') => {
                self.times = Some(times % 1000 * 10 + u16::from(c - b'0'));
            }
            (Some(times), _) => {
                self.times = None;
                self.len = repeat(self.start, self.len, usize::from(times), out);
            }
            (None, b'[') => self.start = self.len,
            (None, b']') => self.times = Some(0),
            (None, _) => {
                if let Some(byte) = self.half.take(c) {
                    self.len = hex::put(byte, self.len, out);
                }
            }
        }
    }
}

// Puts copies of the bytes start to len behind them, as many as fit, until there are so many in all, and answers where the last one ends.
fn repeat(start: usize, len: usize, times: usize, out: &mut [u8]) -> usize
    requires { len ≤ length out.old }
    ensures { result ≤ length out.old }
{
    if len <= start {
        return len;
    }
    let width = len - start;
    let end = width
        .saturating_mul(times)
        .saturating_add(start)
        .min(out.len());
    for i in len..end {
        out[i] = out[i - width];
    }
    end
}
