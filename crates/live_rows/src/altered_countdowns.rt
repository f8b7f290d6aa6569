// States with countdowns in which a word was made another.
use crate::altered::{WANTS_256, held, refused};
use crate::place;
use crate::state::State;
use gateway::{lift_observe, lift_open};
use lent::live::STATE_WORDS;
use std::io;

// Ticks, each of which begins a countdown.
const TICKS: usize = 8;

// Countdowns that want 255: of 2 on 0, of 1 on 2, and of 1 on 0; and of 1 on 0 one that wants 1, and one that wants 0.
const OF_CLOCK_2: u32 = 0x00FF_0002;

const ON_CLOCK_2: u32 = 0x00FF_0201;

const WANTS_255: u32 = 0x00FF_0001;

const WANTS_1: u32 = 0x0001_0001;

const WANTS_0: u32 = 0x0000_0001;

// A row of the first remainder held.
const ROW: usize = place::HELD;

// After each tick of 0, 1 ticks at the 255th later tick of 0: eight ticks at -3. Eight countdowns are held in one remainder.
fn eight_countdowns() -> State {
    let mut state = [0; STATE_WORDS];
    let _open = lift_open(
        b"\x01\x00\x01\x00\x02\x04\x00\x18\x00\x00\x00\x01\xff",
        &mut state,
    );
    for _ in 0..TICKS {
        let _tick = lift_observe(&mut state, b"\x06\x00\x20\x00\x01\xfd\xff\x00\x00\x00");
    }
    state
}

pub fn outside(rt: &impl Print) -> io::Result<()> {
    println!(rt; "Eight countdowns: a word made another, outside the limits")?;
    let s = eight_countdowns();
    for (what, at, word) in [
        ("a count of 0", place::LINE_NUMBER, 0),
        ("9 countdowns", ROW + place::COUNTING, 9),
        ("a countdown of clock 2", ROW + place::COUNTDOWN, OF_CLOCK_2),
        ("a countdown on clock 2", ROW + place::COUNTDOWN, ON_CLOCK_2),
        ("0 wanted", ROW + place::COUNTDOWN, WANTS_0),
        ("256 wanted", ROW + place::COUNTDOWN, WANTS_256),
        (
            "0 wanted by the eighth",
            ROW + place::EIGHTH_COUNTDOWN,
            WANTS_0,
        ),
    ] {
        refused(rt, what, &s, at, word)?;
    }
    Ok(())
}

pub fn at_limits(rt: &impl Print) -> io::Result<()> {
    println!(rt; "The same state: a word made another, at its limit")?;
    let s = eight_countdowns();
    for (what, at, word) in [
        ("a count of 1", place::LINE_NUMBER, 1),
        ("8 countdowns", ROW + place::COUNTING, 8),
        ("no countdown", ROW + place::COUNTING, 0),
        ("1 wanted", ROW + place::COUNTDOWN, WANTS_1),
        ("255 wanted", ROW + place::COUNTDOWN, WANTS_255),
    ] {
        held(rt, what, &s, at, word)?;
    }
    Ok(())
}
