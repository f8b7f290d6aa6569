// A record whose length is 65,535, after the clocks record of a sheet of one clock.
use crate::instant_row::read_case;
use crate::place_row::record_case;
use crate::sheet_row::shown;
use records::sheet::read_sheet;
use std::io;

// The record stands at byte 5; the bytes end with it.
fn cases(rt: &impl Print, bytes: &[u8; 65544]) -> io::Result<()> {
    let short = &bytes[..65543];
    record_case(rt, "whole", bytes, 5)?;
    record_case(rt, "a byte short", short, 5)?;
    shown(rt, "as a line", read_sheet(bytes), bytes)?;
    shown(rt, "as a line, a byte short", read_sheet(short), short)?;
    read_case(rt, "as an instant", &bytes[5..], 1, 1)?;
    read_case(rt, "as an instant, a byte short", &short[5..], 1, 1)
}

pub fn all(rt: &impl Print) -> io::Result<()> {
    let mut bytes = [0u8; 65544];
    bytes[..8].copy_from_slice(&[1, 0, 1, 0, 1, 255, 255, 16]);
    println!(rt; "A record of length 65535, kind 16")?;
    cases(rt, &bytes)?;
    bytes[7] = 32;
    println!(rt; "A record of length 65535, kind 32")?;
    cases(rt, &bytes)
}
