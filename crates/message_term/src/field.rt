// The number of a public name, a variable or an alias, read again ("Bytes").
ghost use Rattle.std.specs.Prelude.{◌<◌};
ghost use Rattle.message_term.specs.Inner.{FieldAt};

use decode_number::number;
use decode_number::number::Decoding;

// The number at a position. Where none stands, the answer is open. The remainder changes no number that was read, and bounds it.
pub(crate) fn read(s: &[u8], at: usize) -> Decoding
    ensures result_bound { result.value < 16384 }
    ensures field_at { FieldAt s.now at result.value result.end }
{
    let Decoding { value, end } = number::decoded(s, at);
    Decoding {
        value: value % 16384,
        end,
    }
}
