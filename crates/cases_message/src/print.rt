// What is written behind a line.
use message_bytes::run;
use std::io;

pub(crate) fn equal(rt: &impl Print, a: &[u8], b: &[u8]) -> io::Result<()> {
    if run::compare(a, b) {
        rt.print(" : equal")
    } else {
        rt.print(" : different")
    }
}

pub(crate) fn size(rt: &impl Print, m: &[u8]) -> io::Result<()> {
    print!(rt; " : size {}", run::size(m))
}

// Each node behind a blank.
pub(crate) fn nodes(rt: &impl Print, m: &[u8]) -> io::Result<()> {
    rt.print(",")?;
    for node in m.chunks(2) {
        rt.print(" ")?;
        for b in node {
            print!(rt; "{b:02x}")?;
        }
    }
    Ok(())
}
