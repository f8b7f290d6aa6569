// An instant read and written back.
use crate::fields::{byte_of, number_of, parted};
use crate::room::{marked, written_back};
use crate::tape::tape_of;
use records::form::Form;
use records::instant::{Instant, Tick, read_instant, write_instant};
use records::next::read_next;
use records::refusal::Refusal;
use std::io;

// How a clock is seen.
fn word_of(t: Tick) -> &'static str {
    match t {
        Tick::Idle => "idle",
        Tick::Ticks => "ticks",
        Tick::Unseen => "unseen",
    }
}

// The ticks and the tags of the first `clocks` clocks.
fn clocks_of(rt: &impl Print, v: &Instant, clocks: usize) -> io::Result<()> {
    for (i, (tick, tag)) in v.ticks.iter().zip(&v.tags).enumerate().take(clocks) {
        let seen = word_of(*tick);
        print!(rt; ", {i} {seen} at {tag}")?;
    }
    Ok(())
}

fn taken(rt: &impl Print, v: Instant, shown: usize, bytes: &[u8], clocks: u8) -> io::Result<()> {
    print!(rt; "taken")?;
    if let Form::Numbered(n) = v.form {
        print!(rt; ", number {n}")?;
    }
    clocks_of(rt, &v, shown)?;
    let mut room = marked();
    let written = write_instant(v, clocks, &mut room);
    written_back(rt, written, &room, bytes)
}

// What was read: the number of a refusal, or the instant, with as many clocks as told, written back.
fn outcome(
    rt: &impl Print,
    name: &str,
    read: Result<Instant, Refusal>,
    shown: usize,
    bytes: &[u8],
    clocks: u8,
) -> io::Result<()> {
    print!(rt; "  {name}: ")?;
    match read {
        Err(refusal) => print!(rt; "refused {}", u8::from(refusal))?,
        Ok(instant) => taken(rt, instant, shown, bytes, clocks)?,
    }
    println!(rt)
}

// Reads an instant of so many clocks.
pub fn read_case(
    rt: &impl Print,
    name: &str,
    bytes: &[u8],
    clocks: u8,
    shown: u8,
) -> io::Result<()> {
    let r = read_instant(bytes, clocks);
    outcome(rt, name, r, usize::from(shown), bytes, clocks)
}

// The same of a row, with at least so many clocks of the value.
pub fn instant_row(rt: &impl Print, name: &str, fields: &str, least: u8) -> io::Result<()> {
    let (count, text) = parted(fields);
    let clocks = byte_of(count);
    read_case(rt, name, tape_of(text).told(), clocks, clocks.max(least))
}

// Reads the next instant of a run of one clock that holds so many.
pub fn next_row(rt: &impl Print, name: &str, fields: &str) -> io::Result<()> {
    let (held, text) = parted(fields);
    let tape = tape_of(text);
    let r = read_next(tape.told(), 1, number_of(held));
    outcome(rt, name, r, 1, tape.told(), 1)
}
