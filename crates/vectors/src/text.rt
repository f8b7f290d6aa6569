// What rows have in common.
use std::io;

// A number of things, as '1 line' and '2 lines'.
pub fn counted(rt: &impl Print, n: usize, noun: &str) -> io::Result<()> {
    let ending = if n == 1 { "" } else { "s" };
    print!(rt; "{n} {noun}{ending}")
}

// Bytes in hexadecimal, a space before each.
pub fn listing(rt: &impl Print, bytes: &[u8]) -> io::Result<()> {
    for x in bytes {
        print!(rt; " {x:02x}")?;
    }
    Ok(())
}
