// As many instants as a monitor takes.
use crate::row::row;
use crate::state::{State, last, observe};
use gateway::{lift_observe, lift_open};
use lent::live::STATE_WORDS;
use std::io;

// Instants before the rows.
const UNTOLD: usize = 3998;

// Takes so many idle instants of one clock; the last result.
fn idle_instants(state: &mut State, times: usize) -> u64 {
    let mut r = 0;
    for _ in 0..times {
        r = lift_observe(state, b"\x03\x00\x20\x00\x00\x00\x00");
    }
    r
}

fn idle(rt: &impl Print, state: &mut State) -> io::Result<()> {
    observe(rt, state, "observe, idle", b"\x03\x00\x20\x00\x00\x00\x00")
}

// An idle instant with a number.
fn numbered(rt: &impl Print, state: &mut State, what: &str, number: u16) -> io::Result<()> {
    let [low, high] = number.to_le_bytes();
    observe(rt, state, what, &[5, 0, 33, 0, low, high, 0, 0, 0])
}

pub fn run(rt: &impl Print) -> io::Result<()> {
    println!(rt; "4,000 instants of one clock and no line")?;
    let mut state = [0; STATE_WORDS];
    row(rt, "open", lift_open(b"\x01\x00\x01\x00\x01", &mut state))?;
    row(
        rt,
        "observe, 3,998 times",
        idle_instants(&mut state, UNTOLD),
    )?;
    idle(rt, &mut state)?;
    numbered(rt, &mut state, "observe, number 3,999", 3999)?;
    numbered(rt, &mut state, "observe, number 4,000", 4000)?;
    numbered(rt, &mut state, "observe, number 4,001", 4001)?;
    numbered(rt, &mut state, "observe, number 3,840", 3840)?;
    idle(rt, &mut state)?;
    observe(
        rt,
        &mut state,
        "observe, tick byte 3",
        b"\x03\x00\x20\x00\x03\x00\x00",
    )?;
    last(rt, &state)
}
