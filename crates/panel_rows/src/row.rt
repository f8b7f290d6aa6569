// A row: a monitor, and what the panel shows of it for several clocks.
use judge::monitor::Monitor;
use panel::panel_count;
use std::fmt::Display;
use std::io;

fn shown(rt: &impl Print, m: Monitor, clock: u8) -> io::Result<()> {
    match panel_count(m, clock) {
        Ok(n) => print!(rt; " clock {clock}: {n}"),
        Err(refusal) => {
            let number = u8::from(refusal);
            print!(rt; " clock {clock}: refused {number}")
        }
    }
}

// The last two clocks are on none of the sheets.
pub fn row(rt: &impl Print, name: impl Display + Drop, m: Monitor) -> io::Result<()> {
    print!(rt; "  {name};")?;
    shown(rt, m, 0)?;
    for clock in [1, 2, 255] {
        print!(rt; ",")?;
        shown(rt, m, clock)?;
    }
    println!(rt)
}
