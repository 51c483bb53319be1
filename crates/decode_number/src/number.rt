// A number at a position of a slice ("Bytes", first paragraph; 2 and 3). How many bytes it has is worked out, and never asked: each test of
// its bytes goes the same way for all numbers of a well-formed slice.
ghost use Rattle.std.specs.Prelude.{◌≡◌, ◌≤◌, ◌<◌};
ghost use Rattle.meaning.specs.Bytes.Number.{number};
ghost use Rattle.decode_number.specs.Decoding.{decode, decoded_value, decoded_end, canonical};
ghost use Rattle.decode_number.specs.Answer.{answer, numeral, bounded, extent};
ghost use Rattle.decode_number.specs.Bounded.{number_below};

use crate::answer::{Refusal, Refused};

// How many numbers one byte can hold, and how many two can.
const ONE_BYTE: usize = 128;

const TWO_BYTES: usize = 16384;

// Why a number is refused: the bytes end early, or it is not in the one form.
#[derive(Clone, Copy, Debug, PartialEq, Eq)]
pub enum Fault {
    Truncated,
    Malformed,
}

// The value of two bytes: the first one's low seven bits, and 128 times the second times the first one's top bit.
fn decode(first: usize, second: usize) -> usize
    requires { (first < 256) × (second < 256) }
    ensures { result ≡ decode first second }
{
    first % 128 + 128 * second * (first / 128)
}

// The value of a number, in whatever form, and the position after it.
#[derive(Clone, Copy, Debug, PartialEq, Eq)]
pub struct Decoding {
    pub value: usize,
    pub end: usize,
}

// The number at a position, in whatever form. Where the bytes end early, the position after it is that position itself. A number of one
// byte has that byte for its last, which then counts 0 times.
pub fn decoded(s: &[u8], at: usize) -> Decoding
    ensures result_value { result.value ≡ decoded_value s.now at }
    ensures result_value_2 { result.end ≡ decoded_end s.now at }
    ensures at_value { number s.now at ≡ canonical s.now at result.value result.end }
{
    if s.len() <= at {
        return Decoding { value: 0, end: at };
    }
    let first = usize::from(s[at]);
    let place = at + first / 128;
    if s.len() <= place {
        let value = decode(first, 0);
        return Decoding { value, end: at };
    }
    let last = usize::from(s[place]);
    let value = decode(first, last);
    Decoding {
        value,
        end: place + 1,
    }
}

// The number at a position: seven bits to a byte, low bits first, in one byte or two.
pub fn read(s: &[u8], at: usize) -> Result<Decoding, Fault>
    ensures { numeral s.now at result ≡ number s.now at }
{
    let Decoding { value, end } = decoded(s, at);
    if end <= at {
        return Err(Fault::Truncated);
    }
    if TWO_BYTES <= value {
        return Err(Fault::Malformed);
    }
    if end - at - 1 <= value / ONE_BYTE {
        return Ok(Decoding { value, end });
    }
    Err(Fault::Malformed)
}

// A number that is refused for this reason unless it is below the limit.
fn below_any(s: &[u8], at: usize, limit: usize, why: Refusal) -> Result<Decoding, Refused>
    ensures { bounded result ≡ number_below limit why s.now at }
{
    let (why, place) = match read(s, at) {
        Ok(number) if number.value < limit => return Ok(number),
        Ok(_) => (why, at),
        Err(Fault::Truncated) => (Refusal::Truncated, s.len()),
        Err(Fault::Malformed) => (Refusal::Malformed, at),
    };
    Err(Refused { why, place })
}

// The same, for a limit below which every number has one byte: any other first byte is refused, for whatever reason.
fn below_short(s: &[u8], at: usize, limit: usize, why: Refusal) -> Result<Decoding, Refused>
    requires { limit ≤ 128 }
    ensures { bounded result ≡ number_below limit why s.now at }
{
    if s.len() <= at {
        return Err(Refused {
            why: Refusal::Truncated,
            place: s.len(),
        });
    }
    let first = usize::from(s[at]);
    if first < limit {
        return Ok(Decoding {
            value: first,
            end: at + 1,
        });
    }
    below_any(s, at, limit, why)
}

// The same, for every limit.
pub fn below(s: &[u8], at: usize, limit: usize, why: Refusal) -> Result<Decoding, Refused>
    ensures { bounded result ≡ number_below limit why s.now at }
{
    if limit <= ONE_BYTE {
        return below_short(s, at, limit, why);
    }
    below_any(s, at, limit, why)
}

// The same, where only its end is asked for.
pub fn end_below(s: &[u8], at: usize, limit: usize, why: Refusal) -> Result<usize, Refused>
    ensures { answer result ≡ extent (number_below limit why s.now at) }
{
    let Decoding { end, .. } = below(s, at, limit, why)?;
    Ok(end)
}
