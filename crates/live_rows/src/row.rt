// A row: a call, and each part of its result.
use std::fmt::Display;
use std::io;

fn word_of(answer: u8) -> &'static str {
    match answer {
        0 => "-",
        1 => "exhausted",
        2 => "broken",
        3 => "holding",
        _ => "?",
    }
}

// Nothing but a holding monitor is clear or owed.
fn standing_of(answer: u8, clear: u8) -> &'static str {
    match (answer, clear) {
        (3, 0) => "owed",
        (_, 0) => "-",
        (_, 1) => "clear",
        _ => "?",
    }
}

// The parts of a result, from its lowest byte up: number, answer, live, clear, each one byte; then the count of instants.
pub fn row(rt: &impl Print, call: impl Display + Drop, r: u64) -> io::Result<()> {
    let [number, answer, live, clear, a, b, c, d] = r.to_le_bytes();
    let word = word_of(answer);
    let standing = standing_of(answer, clear);
    let instants = u32::from_le_bytes([a, b, c, d]);
    println!(rt; "  {call}: number {number}, {word} {live} {standing}, instants {instants}")
}

// What is done to a state before the rows that follow.
pub fn step(rt: &impl Print, what: &str) -> io::Result<()> {
    println!(rt; " {what}")
}
