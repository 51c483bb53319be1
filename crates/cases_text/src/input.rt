// The table that a test program is given, line by line.
ghost use Rattle.std.specs.Prelude.{◌≡◌, ◌≤◌, length, IfOk, OnErr};

use std::io;
use std::io::Read;

// The most bytes that a table may have; what stands behind them is not read.
pub const TABLE: usize = 65536;

// Reads a table, and hands over one line after the other, each without its end.
pub fn each_line<R: Read + Drop, F: FnMut(&[u8]) -> io::Result<()>>(
    mut input: R,
    mut take: F,
) -> io::Result<()>
    requires { F.IsAlwaysCallable take }
{
    let mut table = [0u8; TABLE];
    let n = read_full(&mut input, &mut table)?;
    for line in table[..n].split_inclusive(|c| *c == b'\n') {
        take(line.strip_suffix(b"\n").unwrap_or(line))?;
    }
    Ok(())
}

// Reads until the slice is full or the input ends, and answers how many bytes it put at the start of it. Where reading fails, what was read
// until then stands there.
pub fn read_full(input: &mut impl Read, out: &mut [u8]) -> io::Result<usize>
    ensures ok { IfOk result (λ n. n ≤ length out.new) }
    ensures err { OnErr result (length out.new ≡ length out.old) }
{
    let mut done = 0;
    while done < out.len() {
        let n = input.read(&mut out[done..])?;
        if n == 0 {
            break;
        }
        done += n;
    }
    Ok(done)
}
