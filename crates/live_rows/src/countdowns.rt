// Lines of kind 24: countdowns begun, counted down and met, and too many of them.
use crate::altered::word_of;
use crate::long_delay::nine_ticks;
use crate::place;
use crate::row::{row, step};
use crate::state::Seen::{Idle, Tick, Unseen};
use crate::state::{Seen, State, last, observe, owing};
use gateway::lift_open;
use lent::live::STATE_WORDS;
use std::io;

// An instant of the valve, the pulse and the strain, clocks 0 to 2, each as seen, with tags 0.
fn seen(
    rt: &impl Print,
    state: &mut State,
    call: &str,
    valve: Seen,
    pulse: Seen,
    strain: Seen,
) -> io::Result<()> {
    let mut bytes = [9, 0, 32, 0, 0, 0, 0, 0, 0, 0, 0, 0, 0];
    bytes[4] = valve as u8;
    bytes[7] = pulse as u8;
    bytes[10] = strain as u8;
    observe(rt, state, call, &bytes)
}

fn pulse(rt: &impl Print, state: &mut State) -> io::Result<()> {
    seen(rt, state, "observe, pulse", Idle, Tick, Idle)
}

// The first remainder's number of countdowns, and the first of these, as the words have them: its clock, its on-clock, and the ticks still wanted; and who owes each clock.
fn told(rt: &impl Print, state: &State) -> io::Result<()> {
    let side = word_of(state, place::SIDE);
    // (a usize has no `From` of 32 bits)
    let row = place::ROW * (side as usize);
    let count = word_of(state, row + place::COUNTING);
    let [clock, on, low, high] = word_of(state, row + place::COUNTDOWN).to_le_bytes();
    let wanted = u16::from_le_bytes([low, high]);
    println!(rt;
        "  words: countdowns {count}, the first of clock {clock} on {on}, wanted {wanted}"
    )?;
    for clock in 0..3 {
        owing(rt, state, clock)?;
    }
    Ok(())
}

// The valve moves at a pulse, which doesn't count, and again; strain comes early; a pulse is unseen.
fn counted_down(rt: &impl Print, state: &mut State) -> io::Result<()> {
    told(rt, state)?;
    seen(rt, state, "observe, valve and pulse", Tick, Tick, Idle)?;
    told(rt, state)?;
    seen(rt, state, "observe, valve", Tick, Idle, Idle)?;
    told(rt, state)?;
    pulse(rt, state)?;
    told(rt, state)?;
    seen(rt, state, "observe, strain", Idle, Idle, Tick)?;
    told(rt, state)?;
    seen(rt, state, "observe, pulse unseen", Idle, Unseen, Idle)?;
    told(rt, state)?;
    pulse(rt, state)?;
    told(rt, state)?;
    pulse(rt, state)?;
    told(rt, state)
}

// After each tick of 0, 2 ticks at the fourth later tick of 1.
pub fn fourth_pulse(rt: &impl Print) -> io::Result<()> {
    println!(rt;
        "Document 02's strain at the fourth pulse: 0 the valve, 1 the pulse, 2 the strain"
    )?;
    let mut state = [0; STATE_WORDS];
    let sheet = b"\x01\x00\x01\x00\x03\x04\x00\x18\x00\x00\x01\x02\x04";
    row(rt, "open", lift_open(sheet, &mut state))?;
    counted_down(rt, &mut state)?;
    let mut copy = state;
    step(rt, "met")?;
    seen(
        rt,
        &mut state,
        "observe, pulse and strain",
        Idle,
        Tick,
        Tick,
    )?;
    told(rt, &state)?;
    pulse(rt, &mut state)?;
    step(rt, "a copy of the words, missed")?;
    last(rt, &copy)?;
    pulse(rt, &mut copy)?;
    told(rt, &copy)
}

// Opens a sheet, and takes nine ticks.
fn nine(rt: &impl Print, what: &str, sheet: &[u8]) -> io::Result<()> {
    step(rt, what)?;
    let mut state = [0; STATE_WORDS];
    row(rt, "open", lift_open(sheet, &mut state))?;
    nine_ticks(rt, &mut state)
}

// After each tick of 0, 1 ticks at a later tick of 0.
pub fn many(rt: &impl Print) -> io::Result<()> {
    println!(rt; "Delays counted in ticks, nine ticks")?;
    nine(
        rt,
        "a count of 255",
        b"\x01\x00\x01\x00\x02\x04\x00\x18\x00\x00\x00\x01\xff",
    )?;
    nine(
        rt,
        "a count of 8, missed at the ninth",
        b"\x01\x00\x01\x00\x02\x04\x00\x18\x00\x00\x00\x01\x08",
    )?;
    nine(
        rt,
        "a delay of 100 and a count of 255",
        b"\x01\x00\x01\x00\x02\x05\x00\x14\x00\x00\x00\x01\x64\x00\x04\x00\x18\x00\x00\x00\x01\xff",
    )
}
