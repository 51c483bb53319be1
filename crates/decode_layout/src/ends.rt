// Where terms end that are known to stand at a position ("Bytes"). A kind comes before its parts, so one pass that counts the terms
// still to come finds the end. Nothing is validated. Where no such term stands, the answer is left open, but it is never before the position.
ghost use Rattle.std.specs.Prelude.{◌≤◌};
ghost use Rattle.decode_layout.specs.Ends.{NumbersEnd, TermEnd, TermsEnd};

use crate::layout;
use crate::layout::Layout;
use decode_number::number;

// The end of one number, or of none.
fn numbers(s: &[u8], at: usize, count: usize) -> usize
    requires { count ≤ 1 }
    ensures lower_bound { at ≤ result }
    ensures numbers_end { NumbersEnd s.now at count result }
{
    if count == 0 {
        return at;
    }
    number::decoded(s, at).end
}

// The end of so many terms in a row.
pub fn terms(s: &[u8], at: usize, count: usize) -> usize
    ensures lower_bound { at ≤ result }
    ensures terms_end { TermsEnd s.now at count result }
{
    // More terms than bytes cannot stand here; and so the count stays small enough to add to.
    if s.len() < count {
        return at;
    }
    let mut i = at;
    let mut left = count;
    while 0 < left {
        if s.len() <= i {
            return i;
        }
        let k = usize::from(s[i]) % layout::TERM_KINDS;
        let Layout { fields, parts, .. } = layout::term(k);
        i = numbers(s, i + 1, fields);
        left = left - 1 + parts;
    }
    i
}

// The end of a term.
pub fn term(s: &[u8], at: usize) -> usize
    ensures lower_bound { at ≤ result }
    ensures term_end { TermEnd s.now at result }
{
    terms(s, at, 1)
}
