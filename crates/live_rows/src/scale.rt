// The end of the scale, 32,767: 0 delayed by d on 0 implies 1, where a due is at it or would be past it.
use crate::row::{row, step};
use crate::state::Seen::{Idle, Tick, Unseen};
use crate::state::{Seen, State, last, observe, owing};
use gateway::lift_open;
use lent::live::STATE_WORDS;
use std::io;

// The last tag.
const END: u16 = 32767;

fn opened(rt: &impl Print, state: &mut State, delay: u8) -> io::Result<()> {
    let sheet = [1, 0, 1, 0, 2, 5, 0, 20, 0, 0, 0, 1, delay, 0];
    row(rt, "open", lift_open(&sheet, state))
}

// Clocks 0 and 1 as seen, 0 at a tag from 32,000 on.
fn seen(
    rt: &impl Print,
    state: &mut State,
    word: &str,
    zero: Seen,
    tag: u16,
    one: Seen,
) -> io::Result<()> {
    let [low, high] = tag.to_le_bytes();
    let bytes = [6, 0, 32, 0, zero as u8, low, high, one as u8, 0, 0];
    let last_digits = tag % 1000;
    observe(
        rt,
        state,
        format_args!("observe, {word} at 32,{last_digits}"),
        &bytes,
    )?;
    owing(rt, state, 1)
}

// Clock 0 ticks at a tag, 1 is idle.
fn tick(rt: &impl Print, state: &mut State, tag: u16) -> io::Result<()> {
    seen(rt, state, "tick", Tick, tag, Idle)
}

// Clock 1 ticks, while 0 is idle at a tag.
fn reading(rt: &impl Print, state: &mut State, tag: u16) -> io::Result<()> {
    seen(rt, state, "reading", Idle, tag, Tick)
}

// A delay from the end, and one past it.
fn from_end(rt: &impl Print) -> io::Result<()> {
    step(rt, "d = 0, begun at 32,767")?;
    let mut state = [0; STATE_WORDS];
    opened(rt, &mut state, 0)?;
    tick(rt, &mut state, END)?;
    reading(rt, &mut state, END)?;
    step(rt, "d = 1, begun at 32,767")?;
    let mut state = [0; STATE_WORDS];
    opened(rt, &mut state, 1)?;
    tick(rt, &mut state, END)
}

// A long lift: owed until its reading, and clear to its end.
fn long_lift(rt: &impl Print) -> io::Result<()> {
    step(rt, "d = 100, a long lift")?;
    let mut state = [0; STATE_WORDS];
    opened(rt, &mut state, 100)?;
    tick(rt, &mut state, 32600)?;
    reading(rt, &mut state, 32700)?;
    tick(rt, &mut state, 32700)?;
    seen(rt, &mut state, "unseen", Unseen, END, Idle)?;
    last(rt, &state)
}

// Nine ticks, at 32,759 to 32,767, after a delay is opened.
fn ticks(rt: &impl Print, delay: u8) -> io::Result<()> {
    let mut state = [0; STATE_WORDS];
    opened(rt, &mut state, delay)?;
    for tag in 32759..=END {
        tick(rt, &mut state, tag)?;
    }
    Ok(())
}

// With a delay of 100 all are due past the end, with one of 8 the first at it.
fn nine_ticks(rt: &impl Print) -> io::Result<()> {
    step(rt, "d = 100, nine ticks up to 32,767")?;
    ticks(rt, 100)?;
    step(rt, "d = 8, nine ticks up to 32,767")?;
    ticks(rt, 8)
}

pub fn all(rt: &impl Print) -> io::Result<()> {
    println!(rt; "The end of the scale")?;
    from_end(rt)?;
    long_lift(rt)?;
    nine_ticks(rt)
}
