// Runs a table of findings through the verdict and writes each answer behind its line (document 01, "Turned back for the input",
// "Turned back for the state", "Judged by hand"). What stdout has was worked out from document 01, apart from this
// library.
//
// A line that starts with `1`, `2` or `f` gives the first model, the second or the formula, for every case below it up to the next
// such line. A line that starts with `w` is a case: `w 65536 b 1000000` lends 65,536 work bytes, with a budget of 1,000,000. The
// answer is the four numbers and what became of the work bytes, each 165 before: `untouched` if all still are, `cleared` if the
// first 65,536 are 0 and the later ones still 165, else `changed`. All other lines, as remarks (`#`) and empty ones, are only copied.
//
// Behind `1`, `2` and `f` a byte is two digits, 0 to 9 or A to F. `[07 00]12 ` is what stands in the brackets twelve times; the
// number has at most four digits and ends with a blank or with the line. Brackets do not nest, and other characters are passed
// over. A slice may have 4,300 bytes, the table 65,536.
#![tactic(auto)]

mod given;
mod run;

use cases_text::input;
use given::Given;
use std::io;

fn main(rt: HostRuntime) -> io::Result<()> {
    let mut given = Given::nothing();
    input::each_line(rt.stdin(), |line| {
        rt.write_all(line)?;
        given.take(&rt, line)?;
        rt.write_all(b"\n")
    })
}
