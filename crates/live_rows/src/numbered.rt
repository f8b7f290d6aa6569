// Document 01's listing with numbers: out of turn, repeated and resent, plain records among them, and from a copied state.
use crate::listing::{opened, unseen};
use crate::state::{State, last, observe};
use lent::live::STATE_WORDS;
use std::io;

// The first instant with a number.
fn first(rt: &impl Print, state: &mut State, what: &str, number: u16) -> io::Result<()> {
    let [low, high] = number.to_le_bytes();
    let r = [8, 0, 33, 0, low, high, 1, 253, 255, 0, 0, 0];
    observe(rt, state, what, &r)
}

fn third(rt: &impl Print, state: &mut State) -> io::Result<()> {
    let r = b"\x08\x00\x21\x00\x03\x00\x00\xff\xff\x01\x00\x00";
    observe(rt, state, "observe, number 3", r)
}

fn fourth(rt: &impl Print, state: &mut State, what: &str) -> io::Result<()> {
    let r = b"\x08\x00\x21\x00\x04\x00\x00\x01\x00\x00\x00\x00";
    observe(rt, state, what, r)
}

fn fifth(rt: &impl Print, state: &mut State, what: &str) -> io::Result<()> {
    let r = b"\x08\x00\x21\x00\x05\x00\x00\x00\x00\x00\x00\x00";
    observe(rt, state, what, r)
}

// Faults that come before the number.
fn tick_byte(rt: &impl Print, state: &mut State) -> io::Result<()> {
    let r = b"\x08\x00\x21\x00\x00\x00\x03\xfe\xff\x00\x00\x00";
    observe(rt, state, "observe, number 0, tick byte 3", r)
}

fn without_number(rt: &impl Print, state: &mut State) -> io::Result<()> {
    let r = b"\x06\x00\x21\x00\x02\xfe\xff\x00\x00\x00";
    observe(rt, state, "observe, kind 33 without a number", r)
}

pub fn all(rt: &impl Print) -> io::Result<()> {
    println!(rt; "The listing with numbers, out of turn and resent")?;
    let mut state = [0; STATE_WORDS];
    opened(rt, &mut state)?;
    first(rt, &mut state, "observe, number 0", 0)?;
    first(rt, &mut state, "observe, number 257", 257)?;
    fifth(rt, &mut state, "observe, number 5, none held")?;
    first(rt, &mut state, "observe, number 1", 1)?;
    first(rt, &mut state, "observe, number 1 again", 1)?;
    last(rt, &state)?;
    tick_byte(rt, &mut state)?;
    without_number(rt, &mut state)?;
    unseen(rt, &mut state)?;
    fourth(rt, &mut state, "observe, number 4, two held")?;
    third(rt, &mut state)?;
    let mut copy = state;
    fourth(rt, &mut state, "observe, number 4")?;
    fifth(rt, &mut state, "observe, number 5")?;
    fifth(rt, &mut state, "observe, number 5 again")?;
    last(rt, &state)?;
    fifth(rt, &mut copy, "the copy: observe, number 5, three held")?;
    fourth(rt, &mut copy, "the copy: observe, number 4")?;
    last(rt, &copy)
}
