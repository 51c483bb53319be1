// The text of a line: what a digit is worth, and the number that digits spell.
ghost use Rattle.std.specs.Prelude.{◌<◌, IfSome};

// What a digit is worth; nothing else is worth anything.
pub fn digit(c: u8) -> Option<u8>
    ensures { IfSome result (λ d. d < 16) }
{
    match c {
        b'0'..=b'9' => Some(c - b'0'),
        b'A'..=b'F' => Some(c - b'A' + 10),
        _ => None,
    }
}

// The number that the last ten decimal digits of the text spell; other characters are passed over.
pub fn number(text: &[u8]) -> usize
    ensures { result < 10000000000 }
{
    let mut n = 0;
    for c in text {
        if c.is_ascii_digit() {
            n = n % 1000000000 * 10 + usize::from(*c - b'0');
        }
    }
    n
}
