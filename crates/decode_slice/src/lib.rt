// Reading models and formulas from bytes: the refusals 1 to 8 with their places, or the end of what stands there
// ("Bytes"; "Turned back for the input").
#![tactic(auto)]

mod formula;
mod process;

ghost use Rattle.std.specs.Prelude.{◌≡◌};
ghost use Rattle.meaning.specs.Bytes.Number.{found};
ghost use Rattle.meaning.specs.Bytes.Reading.{read_model, read_formula};
ghost use Rattle.decode_number.specs.Answer.{answer, extent};
ghost use Rattle.decode_slice.specs.Exact.{ModelAnswer, FormulaAnswer};
ghost use Rattle.decode_slice.specs.Sorts.{to_the_end};

use decode_layout::limit;
use decode_number::answer::{Refusal, Refused};
use decode_term::sort;

// The most bytes of a slice.
const BYTES: usize = limit::SLICE;

// A model, as a whole slice.
pub fn read_model(s: &[u8]) -> Result<usize, Refused>
    ensures result_value { answer result ≡ extent (read_model s.now) }
    ensures model_answer { ModelAnswer s.now result }
{
    if BYTES < s.len() {
        let why = Refusal::TooLong;
        return Err(Refused { why, place: BYTES });
    }
    let path = process::Path {
        scope: 0,
        left: limit::PROCESS_NODES,
    };
    let end = sort::read_within(s, 0, path)?;
    to_the_end(s, end)
}

// A formula, as a whole slice.
pub fn read_formula(s: &[u8]) -> Result<usize, Refused>
    ensures result_value { answer result ≡ extent (read_formula s.now) }
    ensures formula_answer { FormulaAnswer s.now result }
{
    if BYTES < s.len() {
        let why = Refusal::TooLong;
        return Err(Refused { why, place: BYTES });
    }
    let path = formula::Path {
        scope: 0,
        left: limit::FORMULA_NODES,
        steps: limit::STEP_FORMULAS,
    };
    let end = sort::read_within(s, 0, path)?;
    to_the_end(s, end)
}

// What ends here, unless bytes are left over.
fn to_the_end(s: &[u8], end: usize) -> Result<usize, Refused>
    ensures { answer result ≡ to_the_end s.now (found tt end) }
{
    if end < s.len() {
        let why = Refusal::Trailing;
        return Err(Refused { why, place: end });
    }
    Ok(end)
}
