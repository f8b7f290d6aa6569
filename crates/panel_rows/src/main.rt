// The panel's counts along stored runs: a row per monitor.
#![tactic(auto)]

mod countdowns;
mod made;
mod row;
mod scale;

use crate::made::{after, counted, opened, owing};
use crate::row::row;
use judge::monitor::Monitor;
use std::io;

// 0 delayed by 2 on 0 implies 1.
fn listing(rt: &impl Print) -> io::Result<()> {
    println!(rt; "Document 01's listing")?;
    let mut m = opened(b"\x01\x00\x01\x00\x02\x05\x00\x14\x00\x00\x00\x01\x02\x00");
    row(rt, "opened", m)?;
    m = after(m, b"\x06\x00\x20\x00\x01\xfd\xff\x00\x00\x00");
    row(rt, "tick at -3", m)?;
    m = after(m, b"\x06\x00\x20\x00\x02\xfe\xff\x00\x00\x00");
    row(rt, "unseen at -2", m)?;
    m = after(m, b"\x06\x00\x20\x00\x00\xff\xff\x01\x00\x00");
    row(rt, "idle at -1, clock 1 ticks", m)?;
    m = after(m, b"\x06\x00\x20\x00\x00\x01\x00\x00\x00\x00");
    row(rt, "idle at 1", m)?;
    m = after(m, b"\x06\x00\x20\x00\x00\x00\x00\x00\x00\x00");
    row(rt, "idle at 0, broken", m)
}

// Clock 0 unseen at a tag.
fn unseen(m: Monitor, tag: u8) -> Monitor {
    after(m, &[6, 0, 32, 0, 2, tag, 0, 0, 0, 0])
}

// 0 delayed by 100 on 0 implies 1.
fn long_delay(rt: &impl Print) -> io::Result<()> {
    println!(rt; "A delay of 100, unseen ticks")?;
    let mut m = opened(b"\x01\x00\x01\x00\x02\x05\x00\x14\x00\x00\x00\x01\x64\x00");
    for tag in 1..=5 {
        m = unseen(m, tag);
        row(rt, format_args!("at {tag}"), m)?;
    }
    row(rt, "at 6, exhausted", unseen(m, 6))
}

// 0 sporadic 1 on 1, 0 sporadic 2 on 1, 1 sporadic 3 on 0.
fn sporadic(rt: &impl Print) -> io::Result<()> {
    println!(rt; "Three sporadic lines: an entry that owes twice counts once")?;
    let m = opened(
        b"\x01\x00\x01\x00\x02\x04\x00\x10\x00\x00\x01\x01\x00\x04\x00\x10\x00\x00\x01\x02\x00\x04\x00\x10\x00\x01\x00\x03\x00",
    );
    row(rt, "opened", m)?;
    row(rt, "made broken", counted(m, Some(0)))?;
    row(rt, "made exhausted", counted(m, None))?;
    row(rt, "made 32 live", counted(m, Some(32)))?;
    row(rt, "made 33 live", counted(m, Some(33)))?;
    row(rt, "made to owe two", owing(m, 2))?;
    row(rt, "made to owe nine", owing(m, 9))?;
    let mut late = m;
    late.instants = 4001;
    row(rt, "made 4,001 instants", late)?;
    row(rt, "no sheet", opened(b""))
}

fn main(rt: HostRuntime) -> io::Result<()> {
    listing(&rt)?;
    long_delay(&rt)?;
    sporadic(&rt)?;
    countdowns::all(&rt)?;
    scale::all(&rt)
}
