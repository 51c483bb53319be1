// Runs a table of models and labels through the library and writes the steps of each and the states that they lead to ("Steps"; "Judging
// and its count"). What stdout has was worked out from document 01, apart from the library: by an independent transcription, and 40 cases
// by hand.
//
// A line is a name, the bytes of a model and the bytes of labels, with `:` between them. A byte is two digits, 0 to 9 or A to F; other
// characters are passed over. A label is `03` and a recipe for the channel of an output, `04` and two recipes for the channel and the
// message of an input, or `05` for a silent step. A recipe is two bytes, `00` and a public name or `01` and an alias. `00` ends a level:
// the labels of the first level are followed at the start state, and those of each further one at all states that the level before it leads
// to. There may be 16 levels. A state is written as four numbers: its threads, the private names made, its aliases and its nodes. A line
// without two `:`, and a remark (`#`), is passed over. The table may have 65,536 bytes.
#![tactic(auto)]

mod ask;
mod follow;
mod label;
mod print;
mod space;

use cases_text::{hex, input};
use follow::Case;
use index_process::index;
use space::Space;
use std::io;

// The most bytes of a model, and those of its labels.
const MODEL: usize = 512;

const LABELS: usize = 64;

fn main(rt: HostRuntime) -> io::Result<()> {
    let mut space = Space::new();
    input::each_line(rt.stdin(), |line| answer_line(&rt, line, &mut space))
}

// Follows the case that the line is, if it is one: the labels that its last part spells, from the start state of the model that the part
// before it spells.
fn answer_line(rt: &impl Print, line: &[u8], space: &mut Space) -> io::Result<()> {
    if line.starts_with(b"#") {
        return Ok(());
    }
    let mut parts = line.splitn(3, |c| *c == b':');
    let (Some(name), Some(model), Some(labels)) = (parts.next(), parts.next(), parts.next()) else {
        return Ok(());
    };
    rt.write_all(name)?;
    rt.print(": ")?;
    let mut s = [0u8; MODEL];
    let n = hex::spell(model, &mut s);
    let mut told = [0u8; LABELS];
    let k = hex::spell(labels, &mut told);
    let mut indexed = [0u8; index::LENGTH];
    index::build(&s[..n], &mut indexed);
    Case::new(&indexed, &told[..k]).start(rt, space)
}
