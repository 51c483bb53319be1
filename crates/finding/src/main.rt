// Judges the finding in the folder where it is run: first.bin, second.bin and formula.bin, with a budget of 1,000,000 visits. It writes the
// four numbers of the verdict in decimal, one space between, and then a newline ("Judged by hand").
#![tactic(auto)]

ghost use Rattle.std.specs.Prelude.{◌≡◌, ◌≤◌, length, IfOk, OnErr};

use std::fs::File;
use std::io;
use std::io::Read;
use std::rt::Files;

// One byte more than a slice may have, so that a longer file is one that the verdict refuses.
const SLICE: usize = 4097;

const BUDGET: u32 = 1000000;

// The bytes that a verdict works in.
const WORK: usize = 65536;

// Puts the first bytes of a file into a slice and answers how many there are: none, if there is no such file. Where reading fails, what was
// read until then stands at the start of the slice.
fn load(rt: &impl Files, path: &str, slice: &mut [u8]) -> io::Result<usize>
    ensures ok { IfOk result (λ n. n ≤ length slice.old) }
    ensures err { OnErr result (length slice.new ≡ length slice.old) }
{
    match File::open(rt, path) {
        Ok(mut file) => read_full(&mut file, slice),
        Err(_) => Ok(0),
    }
}

// Reads until the slice is full or the file ends, and answers how many bytes it put at the start of the slice. Where reading fails, what was
// read until then stands there.
fn read_full(file: &mut impl Read, slice: &mut [u8]) -> io::Result<usize>
    ensures ok { IfOk result (λ n. n ≤ length slice.old) }
    ensures err { OnErr result (length slice.new ≡ length slice.old) }
{
    let mut done = 0;
    while done < slice.len() {
        let n = file.read(&mut slice[done..])?;
        if n == 0 {
            break;
        }
        done += n;
    }
    Ok(done)
}

fn main(rt: HostRuntime) -> io::Result<()> {
    let mut first = [0u8; SLICE];
    let mut second = [0u8; SLICE];
    let mut formula = [0u8; SLICE];
    let n = load(&rt, "first.bin", &mut first)?;
    let k = load(&rt, "second.bin", &mut second)?;
    let l = load(&rt, "formula.bin", &mut formula)?;
    let mut work = [0u8; WORK];
    let answer = gubzsenil::gubzsenil_verdict(
        &first[..n],
        &second[..k],
        &formula[..l],
        &mut work,
        BUDGET,
    );
    println!(rt;
        "{} {} {} {}",
        answer.result, answer.slice, answer.place, answer.count
    )
}
