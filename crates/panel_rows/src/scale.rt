// The panel's counts at the end of the scale, 32,767.
use crate::made::{after, opened, with_sets};
use crate::row::row;
use judge::monitor::Monitor;
use remainders::obligation::Obligation;
use std::io;

// The numbers of the first and the last due, -32,768 and 32,767.
const LEAST: u16 = 0;

const MOST: u16 = 65535;

// 0 delayed by 100 on 0 implies 1: a tick from 32,668 on owes no reading.
fn observed(rt: &impl Print) -> io::Result<()> {
    println!(rt; "A delay of 100 near the end of the scale")?;
    let mut m = opened(b"\x01\x00\x01\x00\x02\x05\x00\x14\x00\x00\x00\x01\x64\x00");
    m = after(m, b"\x06\x00\x20\x00\x02\x9b\x7f\x00\x00\x00");
    row(rt, "unseen at 32,667", m)?;
    m = after(m, b"\x06\x00\x20\x00\x02\x9c\x7f\x00\x00\x00");
    row(rt, "unseen at 32,668", m)?;
    m = after(m, b"\x06\x00\x20\x00\x01\xff\x7f\x00\x00\x00");
    row(rt, "tick at 32,767", m)?;
    m = after(m, b"\x06\x00\x20\x00\x00\xff\x7f\x01\x00\x00");
    row(rt, "idle at 32,767, clock 1 ticks", m)
}

// Two clocks and no line, in its remainder one obligation of clock 1 on 0.
fn one_obligation(due: u16) -> Monitor {
    let m = opened(b"\x01\x00\x01\x00\x02");
    let o = Obligation {
        clock: 1,
        on: 0,
        number: due,
    };
    with_sets(m, 1, o, 0, o)
}

fn at_limits(rt: &impl Print) -> io::Result<()> {
    println!(rt; "Made to owe by one obligation")?;
    row(rt, "due at -32,768", one_obligation(LEAST))?;
    row(rt, "due at 32,767", one_obligation(MOST))
}

pub fn all(rt: &impl Print) -> io::Result<()> {
    observed(rt)?;
    at_limits(rt)
}
