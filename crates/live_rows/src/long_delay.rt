// L9 and L10: clock 0 delayed by 100 on 0 implies 1; and a monitor that goes on from a copy of its words.
use crate::row::{row, step};
use crate::state::{Seen, State, last, observe, owing};
use gateway::lift_open;
use lent::live::STATE_WORDS;
use std::io;

fn opened(rt: &impl Print, state: &mut State) -> io::Result<()> {
    let r = lift_open(
        b"\x01\x00\x01\x00\x02\x05\x00\x14\x00\x00\x00\x01\x64\x00",
        state,
    );
    row(rt, "open", r)
}

// Clock 0 as seen at a tag, clock 1 idle at 0.
fn taken(rt: &impl Print, state: &mut State, seen: Seen, tag: u8) -> io::Result<()> {
    let word = match seen {
        Seen::Idle => "idle",
        Seen::Tick => "tick",
        Seen::Unseen => "unseen",
    };
    observe(
        rt,
        state,
        format_args!("observe, {word} at {tag}"),
        &[6, 0, 32, 0, seen as u8, tag, 0, 0, 0, 0],
    )
}

// Clock 0 as seen at each tag up to the last, who owes clock 1 before and after that, and an idle instant.
fn through(rt: &impl Print, state: &mut State, seen: Seen, first: u8, end: u8) -> io::Result<()> {
    for tag in first..end {
        taken(rt, state, seen, tag)?;
    }
    owing(rt, state, 1)?;
    taken(rt, state, seen, end)?;
    owing(rt, state, 1)?;
    taken(rt, state, Seen::Idle, end.saturating_add(1))?;
    last(rt, state)
}

// Nine ticks of clock 0, at tags 1 to 9, and an instant more.
pub fn nine_ticks(rt: &impl Print, state: &mut State) -> io::Result<()> {
    through(rt, state, Seen::Tick, 1, 9)
}

pub fn ticks(rt: &impl Print) -> io::Result<()> {
    println!(rt; "L9: a delay of 100, nine ticks")?;
    let mut state = [0; STATE_WORDS];
    opened(rt, &mut state)?;
    nine_ticks(rt, &mut state)
}

fn first_unseen(rt: &impl Print, state: &mut State) -> io::Result<()> {
    opened(rt, state)?;
    for tag in 1..=3 {
        taken(rt, state, Seen::Unseen, tag)?;
    }
    Ok(())
}

fn more_unseen(rt: &impl Print, state: &mut State) -> io::Result<()> {
    through(rt, state, Seen::Unseen, 4, 6)
}

pub fn unseen_ticks(rt: &impl Print) -> io::Result<()> {
    println!(rt; "L10: a delay of 100, unseen six times")?;
    let mut state = [0; STATE_WORDS];
    first_unseen(rt, &mut state)?;
    more_unseen(rt, &mut state)
}

pub fn restarted(rt: &impl Print) -> io::Result<()> {
    println!(rt; "A restart: the words are copied after three instants")?;
    let mut state = [0; STATE_WORDS];
    first_unseen(rt, &mut state)?;
    let mut copy = state;
    step(rt, "the copy")?;
    more_unseen(rt, &mut copy)?;
    step(rt, "the words that were copied")?;
    last(rt, &state)?;
    more_unseen(rt, &mut state)?;
    step(rt, "the copy, afterwards")?;
    last(rt, &copy)
}
