// How clocks are seen, and what is asked of every state.
use crate::row::row;
use gateway::{lift_last, lift_observe, lift_owing};
use lent::live::STATE_WORDS;
use std::fmt::Display;
use std::io;

// The words of a state.
pub type State = [u32; STATE_WORDS];

// How a clock is seen, by its tick byte.
#[derive(Clone, Copy)]
pub enum Seen {
    Idle,
    Tick,
    Unseen,
}

// How many owe a clock.
pub fn owing(rt: &impl Print, state: &State, clock: u8) -> io::Result<()> {
    row(
        rt,
        format_args!("owing, clock {clock}"),
        lift_owing(state, clock),
    )
}

// The last answer.
pub fn last(rt: &impl Print, state: &State) -> io::Result<()> {
    row(rt, "last", lift_last(state))
}

// Hands an instant over.
pub fn observe(
    rt: &impl Print,
    state: &mut State,
    call: impl Display + Drop,
    instant: &[u8],
) -> io::Result<()> {
    row(rt, call, lift_observe(state, instant))
}
