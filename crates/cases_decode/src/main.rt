// Runs a table of slices through the readers and writes each answer behind its line ("Turned back for the input", 1 to 8).
// What stdout has was worked out by hand from document 01.
//
// A line that starts with `m` is a model, one that starts with `f` a formula; all others, as remarks (`#`) and empty ones, are only
// copied. A byte is two digits, 0 to 9 or A to F. `[07 00]12 ` is what stands in the brackets twelve times; the number has at most
// four digits and ends with a blank or with the line. Brackets do not nest, and other characters are passed over. The table may
// have 65,536 bytes.
#![tactic(auto)]

use cases_text::{input, spell};
use decode_number::answer::Refused;
use std::io;

// The most bytes of a slice that a line spells: more than the 4,096 that one may have.
const SPACE: usize = 4300;

fn main(rt: HostRuntime) -> io::Result<()> {
    input::each_line(rt.stdin(), |line| {
        rt.write_all(line)?;
        answer_line(&rt, line)?;
        rt.write_all(b"\n")
    })
}

// The first letter says which reader is asked, if any.
fn answer_line(rt: &impl Print, line: &[u8]) -> io::Result<()> {
    match line.first() {
        Some(sort @ (b'm' | b'f')) => answer_slice(rt, line, *sort),
        _ => Ok(()),
    }
}

// The answer on the slice that a line spells. The bytes for it are cleared for such a line alone.
fn answer_slice(rt: &impl Print, line: &[u8], sort: u8) -> io::Result<()> {
    let mut bytes = [0u8; SPACE];
    let n = spell::spell(line, &mut bytes);
    if sort == b'm' {
        print(rt, decode_slice::read_model(&bytes[..n]))
    } else {
        print(rt, decode_slice::read_formula(&bytes[..n]))
    }
}

fn print(rt: &impl Print, read: Result<usize, Refused>) -> io::Result<()> {
    match read {
        Ok(end) => print!(rt; " : ends at {end}"),
        Err(Refused { why, place }) => {
            let number = u32::from(why);
            print!(rt; " : refused {number} at {place}")
        }
    }
}
