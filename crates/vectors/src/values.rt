// Sheet values and instant values, put together from bytes.
use crate::tape::{behind, byte_at};
use records::form::Form;
use records::instant::{Instant, Tick};
use records::line::Line;
use records::sheet::Sheet;
use records::word::tag_of;

// Where the lines of a sheet value begin.
const LINES: usize = 2;

// Where the clocks of an instant value begin.
const CLOCKS: usize = 4;

// The number of the bytes at a place and behind it, the low one first.
fn word_at(bytes: &[u8], at: usize) -> u16 {
    let rest = behind(bytes, at);
    u16::from_le_bytes([byte_at(rest, 0), byte_at(rest, 1)])
}

// How many bytes the body of a line of a kind has.
pub fn body_length(kind: u8) -> u8 {
    match kind {
        16 => 4,
        17 => 6,
        20 => 5,
        24 => 4,
        _ => 2,
    }
}

// The line that its kind and its body tell.
fn line_of(line: &[u8]) -> Line {
    let a = byte_at(line, 1);
    let b = byte_at(line, 2);
    let d = byte_at(line, 3);
    let word = word_at(line, 3);
    match byte_at(line, 0) {
        16 => Line::Sporadic {
            a,
            b,
            t: tag_of(word),
        },
        17 => Line::Relation {
            a,
            b,
            p: tag_of(word),
            q: tag_of(word_at(line, 5)),
        },
        18 => Line::Implies { a, b },
        19 => Line::Excludes { a, b },
        20 => Line::Delayed {
            a,
            b,
            d,
            by: word_at(line, 4),
        },
        21 => Line::Weakly { a, b },
        22 => Line::Strictly { a, b },
        23 => Line::Kills { a, b },
        _ => Line::Counted {
            a,
            b,
            d,
            n: byte_at(line, 4),
        },
    }
}

// Where the line behind the one at a place begins; behind the last it is the first again.
fn next_line(bytes: &[u8], at: usize) -> usize {
    match bytes.get(at) {
        None => LINES,
        Some(kind) => {
            let next = at + 1 + usize::from(body_length(*kind));
            if next < bytes.len() { next } else { LINES }
        }
    }
}

// A sheet value: its clock count, its line count, and the lines at its places, each by its kind and its body; places behind the last begin again with the first.
pub fn sheet_of(bytes: &[u8]) -> Sheet {
    let mut lines = [line_of(behind(bytes, LINES)); 16];
    let mut at = LINES;
    for line in &mut lines {
        *line = line_of(behind(bytes, at));
        at = next_line(bytes, at);
    }
    Sheet {
        clocks: byte_at(bytes, 0),
        count: usize::from(byte_at(bytes, 1)),
        lines,
    }
}

fn tick_of(x: u8) -> Tick {
    match x {
        0 => Tick::Idle,
        1 => Tick::Ticks,
        _ => Tick::Unseen,
    }
}

fn form_of(kind: u8, number: u16) -> Form {
    match kind {
        32 => Form::Plain,
        _ => Form::Numbered(number),
    }
}

// An instant value behind the clock count that it is written with: its kind, its number, and the tick and the tag of each clock.
pub fn instant_of(bytes: &[u8]) -> Instant {
    let form = form_of(byte_at(bytes, 1), word_at(bytes, 2));
    let mut ticks = [Tick::Idle; 8];
    let mut tags = [0; 8];
    for i in 0..8 {
        let cell = behind(bytes, CLOCKS + 3 * i);
        ticks[i] = tick_of(byte_at(cell, 0));
        tags[i] = tag_of(word_at(cell, 1));
    }
    Instant { form, ticks, tags }
}
