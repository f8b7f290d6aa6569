// Document 01's listing, alone and with refused records in between.
use crate::row::row;
use crate::state::{State, last, observe, owing};
use gateway::lift_open;
use lent::live::STATE_WORDS;
use std::io;

// 0 delayed by 2 on 0 implies 1.
pub fn opened(rt: &impl Print, state: &mut State) -> io::Result<()> {
    let r = lift_open(
        b"\x01\x00\x01\x00\x02\x05\x00\x14\x00\x00\x00\x01\x02\x00",
        state,
    );
    row(rt, "open", r)
}

pub fn tick(rt: &impl Print, state: &mut State) -> io::Result<()> {
    let r = b"\x06\x00\x20\x00\x01\xfd\xff\x00\x00\x00";
    observe(rt, state, "observe, tick at -3", r)
}

pub fn unseen(rt: &impl Print, state: &mut State) -> io::Result<()> {
    let r = b"\x06\x00\x20\x00\x02\xfe\xff\x00\x00\x00";
    observe(rt, state, "observe, unseen at -2", r)
}

pub fn met(rt: &impl Print, state: &mut State) -> io::Result<()> {
    let r = b"\x06\x00\x20\x00\x00\xff\xff\x01\x00\x00";
    observe(rt, state, "observe, idle at -1, clock 1 ticks", r)
}

pub fn late(rt: &impl Print, state: &mut State) -> io::Result<()> {
    let r = b"\x06\x00\x20\x00\x00\x01\x00\x00\x00\x00";
    observe(rt, state, "observe, idle at 1", r)
}

fn falling(rt: &impl Print, state: &mut State) -> io::Result<()> {
    let r = b"\x06\x00\x20\x00\x00\x00\x00\x00\x00\x00";
    observe(rt, state, "observe, idle at 0", r)
}

// The last answer, and who owes each clock; the third is not on the sheet.
fn asked(rt: &impl Print, state: &State) -> io::Result<()> {
    last(rt, state)?;
    for clock in 0..3 {
        owing(rt, state, clock)?;
    }
    Ok(())
}

pub fn plain(rt: &impl Print) -> io::Result<()> {
    println!(rt; "Document 01's listing")?;
    let mut state = [0; STATE_WORDS];
    opened(rt, &mut state)?;
    asked(rt, &state)?;
    tick(rt, &mut state)?;
    asked(rt, &state)?;
    unseen(rt, &mut state)?;
    asked(rt, &state)?;
    met(rt, &mut state)?;
    asked(rt, &state)?;
    late(rt, &mut state)?;
    asked(rt, &state)?;
    falling(rt, &mut state)?;
    asked(rt, &state)
}

// Records that are torn or too long.
fn no_bytes(rt: &impl Print, state: &mut State) -> io::Result<()> {
    observe(rt, state, "observe, no bytes", b"")
}

pub fn torn(rt: &impl Print, state: &mut State) -> io::Result<()> {
    observe(rt, state, "observe, three bytes", b"\x06\x00\x20")
}

fn byte_missing(rt: &impl Print, state: &mut State) -> io::Result<()> {
    let r = b"\x06\x00\x20\x00\x02\xfe\xff\x00\x00";
    observe(rt, state, "observe, a byte missing", r)
}

fn byte_more(rt: &impl Print, state: &mut State) -> io::Result<()> {
    let r = b"\x06\x00\x20\x00\x02\xfe\xff\x00\x00\x00\x00";
    observe(rt, state, "observe, a byte too many", r)
}

// Whole records that are no instants of two clocks.
fn wrong_kind(rt: &impl Print, state: &mut State) -> io::Result<()> {
    let r = b"\x06\x00\x1f\x00\x02\xfe\xff\x00\x00\x00";
    observe(rt, state, "observe, kind 31", r)
}

fn one_clock(rt: &impl Print, state: &mut State) -> io::Result<()> {
    let r = b"\x03\x00\x20\x00\x02\xfe\xff";
    observe(rt, state, "observe, one clock", r)
}

fn tick_byte(rt: &impl Print, state: &mut State) -> io::Result<()> {
    let r = b"\x06\x00\x20\x00\x00\x01\x00\x03\x00\x00";
    observe(rt, state, "observe, tick byte 3", r)
}

pub fn with_refusals(rt: &impl Print) -> io::Result<()> {
    println!(rt; "The listing with refused records in between")?;
    let mut state = [0; STATE_WORDS];
    opened(rt, &mut state)?;
    no_bytes(rt, &mut state)?;
    tick(rt, &mut state)?;
    torn(rt, &mut state)?;
    byte_missing(rt, &mut state)?;
    unseen(rt, &mut state)?;
    byte_more(rt, &mut state)?;
    wrong_kind(rt, &mut state)?;
    met(rt, &mut state)?;
    one_clock(rt, &mut state)?;
    late(rt, &mut state)?;
    tick_byte(rt, &mut state)?;
    last(rt, &state)?;
    falling(rt, &mut state)?;
    tick_byte(rt, &mut state)?;
    last(rt, &state)?;
    late(rt, &mut state)
}
