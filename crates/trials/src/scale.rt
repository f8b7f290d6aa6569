// The end of the scale: which delays that an instant may begin are due at it, and which past it.
use crate::tally;
use cases::course::tick_at;
use cases::plan::ZERO;
use cases::tally::{Tally, count};
use records::instant::{Instant, Tick};
use records::line::Line;
use records::sheet::{Sheet, line_at};
use records::word::raw_of;
use std::cmp::Ordering;

// The end of the scale, counted from the least tag, and how many tags there are.
const MOST_TAG: u64 = 65535;

const TAGS: u64 = 65536;

// A tag, counted from the least one.
fn above_least(tag: i16) -> u64 {
    (u64::from(raw_of(tag)) + ZERO) % TAGS
}

// The clock ticks or is unseen.
fn may_tick(v: Instant, clock: u8) -> bool {
    !matches!(tick_at(v, usize::from(clock)), Tick::Idle)
}

// A delay from a clock's tag, by where that stands to the last tag from which its due is on the scale.
fn with_due(t: Tally, v: Instant, on: u8, by: u16) -> Tally {
    let Some(tag) = v.tags.get(usize::from(on)) else {
        return t;
    };
    match above_least(*tag).cmp(&(MOST_TAG - u64::from(by))) {
        Ordering::Less => t,
        Ordering::Equal => count(t, tally::DUE_AT_END),
        Ordering::Greater => count(t, tally::DUE_PAST_END),
    }
}

fn with_line(t: Tally, l: Line, v: Instant) -> Tally {
    match l {
        Line::Delayed { a, b, by, .. } if may_tick(v, a) => with_due(t, v, b, by),
        _ => t,
    }
}

// The delays of a sheet that an instant may begin.
pub fn with_dues(tally: Tally, s: Sheet, v: Instant) -> Tally {
    (0..s.count).fold(tally, |t, i| with_line(t, line_at(s, i), v))
}
