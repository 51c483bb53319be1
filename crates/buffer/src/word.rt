// A number in two bytes, the lower one first.
ghost use Rattle.std.specs.Prelude.{◌≡◌, ◌+◌, ◌<◌, ◌%◌, ◌/◌, length, set};
ghost use Rattle.buffer.specs.Word.{number_at};

// The number that stands at a position.
pub fn number(m: &[u8], at: usize) -> usize
    requires { at + 1 < length m.now }
    ensures value { result ≡ number_at m.now at }
    ensures upper_bound { result < 65536 }
{
    usize::from(m[at]) + 256 * usize::from(m[at + 1])
}

// Writes a number at a position.
pub fn write(m: &mut [u8], at: usize, number: usize)
    requires at_in_bounds { at + 1 < length m.old }
    requires number_bound { number < 65536 }
    ensures { m.new ≡ set (set m.old at (number % 256)) (at + 1) (number / 256) }
{
    m[at] = (number % 256) as u8;
    m[at + 1] = (number / 256) as u8;
}
