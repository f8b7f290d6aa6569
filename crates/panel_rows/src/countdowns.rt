// The panel's counts where remainders have countdowns.
use crate::made::{after, counted, opened, with_sets};
use crate::row::row;
use judge::monitor::Monitor;
use remainders::obligation::Obligation;
use std::io;

// The number of the due 0, which is counted from the least tag.
const DUE_AT_0: u16 = 32768;

// After each tick of 0, 1 ticks at the second later tick of 0.
fn observed(rt: &impl Print) -> io::Result<()> {
    println!(rt; "A delay of two ticks")?;
    let mut m = opened(b"\x01\x00\x01\x00\x02\x04\x00\x18\x00\x00\x00\x01\x02");
    row(rt, "opened", m)?;
    m = after(m, b"\x06\x00\x20\x00\x01\x01\x00\x00\x00\x00");
    row(rt, "tick", m)?;
    m = after(m, b"\x06\x00\x20\x00\x02\x02\x00\x00\x00\x00");
    row(rt, "unseen", m)?;
    m = after(m, b"\x06\x00\x20\x00\x01\x03\x00\x00\x00\x00");
    row(rt, "tick, which one of the two misses", m)?;
    m = after(m, b"\x06\x00\x20\x00\x01\x04\x00\x01\x00\x00");
    row(rt, "tick, clock 1 ticks", m)?;
    m = after(m, b"\x06\x00\x20\x00\x01\x05\x00\x00\x00\x00");
    row(rt, "tick, broken", m)
}

// Two clocks and no line, in its remainder so many obligations of a clock on the other, and so many countdowns of clock 1 on 0.
fn owing_both(owed: usize, clock: u8, on: u8, counting: usize) -> Monitor {
    let m = opened(b"\x01\x00\x01\x00\x02");
    let due = Obligation {
        clock,
        on,
        number: DUE_AT_0,
    };
    let wanted = Obligation {
        clock: 1,
        on: 0,
        number: 1,
    };
    with_sets(m, owed, due, counting, wanted)
}

fn apart(owed: usize, counting: usize) -> Monitor {
    owing_both(owed, 0, 1, counting)
}

fn together(owed: usize, counting: usize) -> Monitor {
    owing_both(owed, 1, 0, counting)
}

fn of_two_clocks(rt: &impl Print) -> io::Result<()> {
    println!(rt; "Made to owe clock 0 by obligations and clock 1 by countdowns on clock 0")?;
    row(rt, "one countdown", apart(0, 1))?;
    row(rt, "eight countdowns", apart(0, 8))?;
    row(rt, "one and one", apart(1, 1))?;
    row(rt, "eight and eight", apart(8, 8))?;
    row(
        rt,
        "eight and eight, made 32 live",
        counted(apart(8, 8), Some(32)),
    )?;
    row(rt, "one obligation and nine countdowns", apart(1, 9))?;
    row(rt, "nine obligations and one countdown", apart(9, 1))
}

fn of_one_clock(rt: &impl Print) -> io::Result<()> {
    println!(rt; "Made to owe clock 1 by both: an entry counts once")?;
    row(rt, "one and one", together(1, 1))?;
    row(rt, "eight and eight", together(8, 8))?;
    row(
        rt,
        "eight and eight, made 32 live",
        counted(together(8, 8), Some(32)),
    )
}

// Two clocks and no line, in its remainder one countdown; the places of obligations are not in use.
fn one_countdown(clock: u8, on: u8, wanted: u16) -> Monitor {
    let m = opened(b"\x01\x00\x01\x00\x02");
    let countdown = Obligation {
        clock,
        on,
        number: wanted,
    };
    with_sets(m, 0, countdown, 1, countdown)
}

fn at_limits(rt: &impl Print) -> io::Result<()> {
    println!(rt; "Made to owe by one countdown")?;
    row(rt, "1 tick wanted", one_countdown(1, 0, 1))?;
    row(rt, "255 ticks wanted", one_countdown(1, 0, 255))?;
    row(rt, "0 ticks wanted", one_countdown(1, 0, 0))?;
    row(rt, "256 ticks wanted", one_countdown(1, 0, 256))?;
    row(rt, "of clock 2", one_countdown(2, 0, 1))?;
    row(rt, "on clock 2", one_countdown(1, 2, 1))
}

pub fn all(rt: &impl Print) -> io::Result<()> {
    observed(rt)?;
    of_two_clocks(rt)?;
    of_one_clock(rt)?;
    at_limits(rt)
}
