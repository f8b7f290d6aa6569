// States in which a word was made another.
use crate::listing::{late, met, torn};
use crate::place;
use crate::row::step;
use crate::same::compared;
use crate::state::{State, last, owing};
use gateway::{lift_observe, lift_open};
use lent::live::STATE_WORDS;
use std::io;

// The bytes of a sheet of sixteen lines: 0 delayed by 0 to 15 on 0 implies 0.
const SIXTEEN_LINES: usize = 149;

// A line's record, and where the first begins.
const LINE: usize = 9;

const FIRST_LINE: usize = 5;

// The format of the version before, in which a due could lie past the scale; and a kind that no line has.
const OLD_FORMAT: u32 = 0x4C46_0002;

const NO_KIND: u32 = 25;

// Obligations of 1 on 0 with dues at both ends, 32,767 and -32,768. No word has a due beyond them.
const DUE_HIGHEST: u32 = 0xFFFF_0001;

const DUE_LOWEST: u32 = 0x0000_0001;

// Obligations of 2 on 0 and of 1 on 2, due at 0.
const OF_CLOCK_2: u32 = 0x8000_0002;

const ON_CLOCK_2: u32 = 0x8000_0201;

// A countdown of 1 on 0 that wants 256.
pub const WANTS_256: u32 = 0x0100_0001;

// A row of the first remainder held, of the one behind the two held, and of the other side.
const ROW: usize = place::HELD;

const THIRD: usize = place::THIRD;

const OTHER: usize = place::OTHER;

// 0 delayed by 2 on 0 implies 1, 0 weakly precedes 1: a tick at -3, unseen at -2. Two remainders are held.
pub fn two_held() -> State {
    let mut state = [0; STATE_WORDS];
    let _open = lift_open(
        b"\x01\x00\x01\x00\x02\x05\x00\x14\x00\x00\x00\x01\x02\x00\x02\x00\x15\x00\x00\x01",
        &mut state,
    );
    let _tick = lift_observe(&mut state, b"\x06\x00\x20\x00\x01\xfd\xff\x00\x00\x00");
    let _unseen = lift_observe(&mut state, b"\x06\x00\x20\x00\x02\xfe\xff\x00\x00\x00");
    state
}

fn sixteen_lines() -> [u8; SIXTEEN_LINES] {
    let mut bytes = [0; SIXTEEN_LINES];
    bytes[..FIRST_LINE].copy_from_slice(&[1, 0, 1, 0, 2]);
    for delay in 0..16 {
        let at = FIRST_LINE + LINE * usize::from(delay);
        bytes[at..at + LINE].copy_from_slice(&[5, 0, 20, 0, 0, 0, 0, delay, 0]);
    }
    bytes
}

fn many_lines() -> State {
    let mut state = [0; STATE_WORDS];
    let _open = lift_open(&sixteen_lines(), &mut state);
    state
}

// A state with one word made another.
fn with_word(from: &State, at: usize, word: u32) -> State {
    let mut state = *from;
    if let Some(there) = state.get_mut(at) {
        *there = word;
    }
    state
}

// The word at a place.
pub fn word_of(state: &State, at: usize) -> u32 {
    state.get(at).copied().unwrap_or(0)
}

// The calls on a state with one word made another; then the next instant with the word as it was.
pub fn refused(rt: &impl Print, what: &str, from: &State, at: usize, word: u32) -> io::Result<()> {
    step(rt, what)?;
    let before = with_word(from, at, word);
    let mut state = before;
    last(rt, &state)?;
    owing(rt, &state, 1)?;
    met(rt, &mut state)?;
    compared(rt, &before, &state)?;
    println!(rt; "  restored")?;
    let mut again = with_word(&state, at, word_of(from, at));
    met(rt, &mut again)
}

pub fn outside(rt: &impl Print) -> io::Result<()> {
    println!(rt;
        "A delay line and a precedes line, two instants: a word made another, outside the limits"
    )?;
    let s = two_held();
    for (what, at, word) in [
        ("another format", place::FORMAT, 1),
        ("the format before", place::FORMAT, OLD_FORMAT),
        ("no clocks", place::CLOCKS, 0),
        ("9 clocks", place::CLOCKS, 9),
        ("17 lines", place::LINES, 17),
    ] {
        refused(rt, what, &s, at, word)?;
    }
    refused(rt, "17 lines for 16", &many_lines(), place::LINES, 17)?;
    for (what, at, word) in [
        ("4,001 instants", place::INSTANTS, 4001),
        ("side 7", place::SIDE, 7),
        ("case 3", place::CASE, 3),
        ("33 live", place::LIVE, 33),
        ("a line of kind 25", place::KIND, NO_KIND),
        ("9 obligations", ROW + place::OWED, 9),
        (
            "an obligation of clock 2",
            ROW + place::OBLIGATION,
            OF_CLOCK_2,
        ),
        (
            "an obligation on clock 2",
            ROW + place::OBLIGATION,
            ON_CLOCK_2,
        ),
        ("9 countdowns", ROW + place::COUNTING, 9),
        ("a countdown that wants 0", ROW + place::COUNTING, 1),
        ("a lead of 3", ROW + place::LEAD, 3),
    ] {
        refused(rt, what, &s, at, word)?;
    }
    Ok(())
}

// What is asked of a state with one word made another.
pub fn held(rt: &impl Print, what: &str, from: &State, at: usize, word: u32) -> io::Result<()> {
    step(rt, what)?;
    let state = with_word(from, at, word);
    last(rt, &state)?;
    owing(rt, &state, 1)
}

pub fn at_limits(rt: &impl Print) -> io::Result<()> {
    println!(rt; "The same state: a word made another, at its limit")?;
    let s = two_held();
    for (what, at, word) in [
        ("8 clocks", place::CLOCKS, 8),
        ("4,000 instants", place::INSTANTS, 4000),
        ("32 live", place::LIVE, 32),
        ("a line of kind 24", place::KIND, 24),
        ("8 obligations", ROW + place::OWED, 8),
        ("a due of 32,767", ROW + place::OBLIGATION, DUE_HIGHEST),
        ("a due of -32,768", ROW + place::OBLIGATION, DUE_LOWEST),
        ("a lead of 2", ROW + place::LEAD, 2),
    ] {
        held(rt, what, &s, at, word)?;
    }
    Ok(())
}

// The calls on a state with one word made another, and two instants more.
fn taken(rt: &impl Print, what: &str, from: &State, at: usize, word: u32) -> io::Result<()> {
    step(rt, what)?;
    let mut state = with_word(from, at, word);
    last(rt, &state)?;
    owing(rt, &state, 1)?;
    met(rt, &mut state)?;
    late(rt, &mut state)
}

// Words of the head and of the lines, of the first remainder's row, and of rows that no remainder has.
pub fn unused(rt: &impl Print) -> io::Result<()> {
    println!(rt; "The same state: a word that is not in use made another")?;
    let s = two_held();
    for (what, at, word) in [
        ("none", place::FREE, 0),
        ("a free word of the head", place::FREE, 1),
        ("the kind of a third line 25", place::UNUSED_KIND, NO_KIND),
        ("the lead of the delay line 3", ROW + place::DELAY_LEAD, 3),
        (
            "an eighth obligation of clock 2",
            ROW + place::EIGHTH_OBLIGATION,
            OF_CLOCK_2,
        ),
        (
            "256 wanted by an eighth countdown",
            ROW + place::EIGHTH_COUNTDOWN,
            WANTS_256,
        ),
        ("9 obligations behind the two held", THIRD + place::OWED, 9),
        (
            "9 countdowns behind the two held",
            THIRD + place::COUNTING,
            9,
        ),
        ("9 obligations in the other side", OTHER + place::OWED, 9),
        ("9 countdowns in the other side", OTHER + place::COUNTING, 9),
    ] {
        taken(rt, what, &s, at, word)?;
    }
    Ok(())
}

pub fn no_monitor(rt: &impl Print) -> io::Result<()> {
    println!(rt; "All words 0")?;
    let mut state = [0; STATE_WORDS];
    last(rt, &state)?;
    owing(rt, &state, 0)?;
    met(rt, &mut state)?;
    torn(rt, &mut state)
}
