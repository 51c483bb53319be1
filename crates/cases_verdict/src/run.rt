// One case: the verdict, with work bytes that are 165 before it.
use cases_text::text::number;
use std::{fmt, io};

// The bytes that there are to lend, and how many of them the verdict uses.
const WORK: usize = 65600;

const USED: usize = 65536;

// What each work byte is before a verdict.
const FILL: u8 = 165;

// The text says how many bytes are lent and, behind a `b`, the budget.
pub(crate) fn run(
    rt: &impl Print,
    text: &[u8],
    first: &[u8],
    second: &[u8],
    formula: &[u8],
) -> io::Result<()> {
    let mut numbers = text.splitn(2, |c| *c == b'b');
    let lent = numbers.next().map_or(0, number).min(WORK);
    let budget = u32::try_from(numbers.next().map_or(0, number)).unwrap_or(u32::MAX);
    let mut work = [FILL; WORK];
    let answer = gubzsenil::gubzsenil_verdict(first, second, formula, &mut work[..lent], budget);
    print!(rt;
        " : {} {} {} {}",
        answer.result, answer.slice, answer.place, answer.count
    )?;
    print!(rt; " {}", left_in(&work))
}

// What a verdict leaves of the work bytes.
#[derive(Clone, Copy)]
enum WorkBytes {
    Untouched,
    Cleared,
    Changed,
}

impl fmt::Display for WorkBytes {
    fn fmt<W: fmt::Write>(&self, f: &mut fmt::Formatter<W>) -> fmt::Result {
        f.write_str(match self {
            WorkBytes::Untouched => "untouched",
            WorkBytes::Cleared => "cleared",
            WorkBytes::Changed => "changed",
        })
    }
}

// What is left in the bytes that the verdict uses and in the rest.
fn left_in(work: &[u8; WORK]) -> WorkBytes {
    let (used, rest) = work.split_at(USED);
    let all = |bytes: &[u8], b: u8| bytes.iter().all(|x| *x == b);
    if !all(rest, FILL) {
        WorkBytes::Changed
    } else if all(used, FILL) {
        WorkBytes::Untouched
    } else if all(used, 0) {
        WorkBytes::Cleared
    } else {
        WorkBytes::Changed
    }
}
