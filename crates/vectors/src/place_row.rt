// The record at a place of a byte string.
use crate::fields::{number_of, parted};
use crate::tape::tape_of;
use records::record::record_at;
use std::io;

pub fn record_case(rt: &impl Print, name: &str, bytes: &[u8], at: usize) -> io::Result<()> {
    print!(rt; "  {name}: at {at}")?;
    match record_at(bytes, at) {
        None => println!(rt; " torn"),
        Some(record) => println!(rt; " whole, kind {}, length {}", record.kind, record.len),
    }
}

pub fn place_row(rt: &impl Print, name: &str, fields: &str) -> io::Result<()> {
    let (at, text) = parted(fields);
    record_case(rt, name, tape_of(text).told(), number_of(at))
}
