// Opening where the words are a monitor already.
use crate::altered::two_held;
use crate::listing::{met, opened, tick};
use crate::row::row;
use crate::same::compared;
use crate::state::{State, last};
use gateway::lift_open;
use std::io;

// Opens bytes that are no sheet.
fn refused(rt: &impl Print, state: &mut State, call: &str, sheet: &[u8]) -> io::Result<()> {
    row(rt, call, lift_open(sheet, state))?;
    last(rt, state)
}

fn refusals(rt: &impl Print, state: &mut State) -> io::Result<()> {
    refused(rt, state, "open, no bytes", b"")?;
    refused(rt, state, "open, 9 clocks", b"\x01\x00\x01\x00\x09")?;
    refused(
        rt,
        state,
        "open, kind 25",
        b"\x01\x00\x01\x00\x02\x02\x00\x19\x00\x00\x01",
    )?;
    refused(
        rt,
        state,
        "open, kind 24 of two bytes",
        b"\x01\x00\x01\x00\x02\x02\x00\x18\x00\x00\x01",
    )?;
    refused(
        rt,
        state,
        "open, clock 2 of two",
        b"\x01\x00\x01\x00\x02\x02\x00\x12\x00\x00\x02",
    )?;
    refused(
        rt,
        state,
        "open, a count of 0",
        b"\x01\x00\x01\x00\x02\x04\x00\x18\x00\x00\x00\x01\x00",
    )?;
    refused(
        rt,
        state,
        "open, a count of 0, clock 2 of two",
        b"\x01\x00\x01\x00\x02\x04\x00\x18\x00\x00\x00\x02\x00",
    )
}

pub fn all(rt: &impl Print) -> io::Result<()> {
    println!(rt; "Opening again: refused, the monitor stays; taken, another begins")?;
    let before = two_held();
    let mut state = before;
    last(rt, &state)?;
    refusals(rt, &mut state)?;
    compared(rt, &before, &state)?;
    met(rt, &mut state)?;
    opened(rt, &mut state)?;
    last(rt, &state)?;
    tick(rt, &mut state)
}
