// Runs a table of messages through the library and writes each answer behind its line ("Messages"; "Judging and its count", 255
// nodes). What stdout has was worked out from document 01, apart from the library.
//
// A line that starts with `work`, `size` or `equal` is a case. Behind that word stand steps, with `|` between them. A step binds the
// next variable, from 0: `new` the next private name, `new 79` or `new F7 7F` the private name with that number, in one byte or in two, the lower one first, and any other step the message of
// the term that its bytes are, worked under the variables before it. A byte is two digits, 0 to 9 or A to F; other characters are
// passed over. `work` asks for the size and the nodes of the last message, `size` for its size alone, and `equal` whether the last
// two messages are equal. If a message is too large, the answer is in which step of the line, counted from 0. A line that starts
// with `given` has steps that stand before those of each case below it, up to the next such line. All other lines, as remarks (`#`)
// and empty ones, are only copied. The table may have 65,536 bytes.
#![tactic(auto)]

mod ends;
mod print;

use cases_text::{hex, input};
use ends::{Ends, SPACE};
use std::io;

// The most bytes of a step.
const STEP: usize = 512;

fn main(rt: HostRuntime) -> io::Result<()> {
    let mut m = [0u8; SPACE];
    let mut given = Ends::default();
    input::each_line(rt.stdin(), |line| {
        rt.write_all(line)?;
        given = answer_line(&rt, line, given, &mut m)?;
        rt.write_all(b"\n")
    })
}

// Writes the answer, if the line is a case; says what is given after it.
fn answer_line(rt: &impl Print, line: &[u8], given: Ends, m: &mut [u8; SPACE]) -> io::Result<Ends> {
    match line.first() {
        Some(b'g') => Ok(bind_all(rt, line, Ends::default(), m)?.unwrap_or_default()),
        Some(word @ (b'w' | b's' | b'e')) => {
            if let Some(ends) = bind_all(rt, line, given, m)? {
                ends.answer(rt, m, *word)?;
            }
            Ok(given)
        }
        _ => Ok(given),
    }
}

// Takes the steps of a line one after the other. Where one is refused, there are no ends, and why has been written.
fn bind_all(
    rt: &impl Print,
    line: &[u8],
    given: Ends,
    m: &mut [u8; SPACE],
) -> io::Result<Option<Ends>> {
    let word = line.iter().position(|c| *c == b' ').unwrap_or(line.len());
    let mut ends = given;
    for (number, step) in line[word..].split_inclusive(|c| *c == b'|').enumerate() {
        let mut bytes = [0u8; STEP];
        let n = hex::spell(step, &mut bytes);
        match ends.bind(&bytes[..n], step.contains(&b'n'), m) {
            Ok(next) => ends = next,
            Err(why) => {
                print!(rt; " : {why} in step {number}")?;
                return Ok(None);
            }
        }
    }
    Ok(Some(ends))
}
