// Whether the input is turned back: the work buffer, and then the three slices in their order ("Turned back for the input").
ghost use Rattle.std.specs.Prelude.{◌≡◌};
ghost use Rattle.meaning.specs.Verdict.{input};
ghost use Rattle.decode_number.specs.Answer.{answer};
ghost use Rattle.verdict_input.specs.Input.{refusal, refusal_of, buffer_refusal, slice_refusal, Placed};

use crate::answer;
use crate::answer::Answer;
use decode_layout::limit;
use decode_number::answer::Refused;

// The work buffer, by its length.
fn buffer(work: usize) -> Result<(), Answer>
    ensures { refusal result ≡ buffer_refusal work }
{
    if work < limit::WORK {
        return Err(answer::refusal(9, 0, 0));
    }
    Ok(())
}

// A slice, by what was read of it.
fn slice(number: u32, read: Result<usize, Refused>) -> Result<(), Answer>
    requires { Placed read }
    ensures { refusal result ≡ slice_refusal number (answer read) }
{
    match read {
        Ok(_) => Ok(()),
        Err(Refused { why, place }) => Err(answer::refusal(u32::from(why), number, place as u32)),
    }
}

// Nothing turns the input back; or the answer on the first thing that does. The buffer is tested first. All slices are read, also behind one
// that is refused.
pub fn read(first: &[u8], second: &[u8], formula: &[u8], work: usize) -> Result<(), Answer>
    ensures { refusal result ≡ refusal_of (input first.now second.now formula.now work) }
{
    let one = slice(1, decode_slice::read_model(first));
    let two = slice(2, decode_slice::read_model(second));
    let three = slice(3, decode_slice::read_formula(formula));
    buffer(work).and(one.and(two.and(three)))
}
