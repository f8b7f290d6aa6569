// The instants of a case, drawn one after the other.
use crate::plan::{Habit, Plan, tag_above, word};
use crate::random::below;
use records::form::Form;
use records::instant::{Instant, Tick};
use records::word::tag_of;

#[derive(Clone, Copy)]
pub struct Course {
    // The tags of the last instant, counted from the least tag.
    pub above: [u64; 8],
    // How many unseen ticks are left to draw.
    pub unseen: u64,
    // The last instant.
    pub instant: Instant,
}

// No ticks, every tag 0.
pub fn idle_instant() -> Instant {
    Instant {
        form: Form::Plain,
        ticks: [Tick::Idle; 8],
        tags: [0; 8],
    }
}

// Before the first instant of a case.
pub fn begin(p: Plan) -> Course {
    Course {
        above: [p.first; 8],
        unseen: p.unseen,
        instant: idle_instant(),
    }
}

// An instant with another tick and tag at a clock below 8.
pub fn with_clock(mut v: Instant, at: usize, tick: Tick, tag: i16) -> Instant {
    if at < 8 {
        v.ticks[at] = tick;
        v.tags[at] = tag;
    }
    v
}

// The tick of a clock; one from the eighth on is idle.
pub fn tick_at(v: Instant, clock: usize) -> Tick {
    if clock < 8 {
        v.ticks[clock]
    } else {
        Tick::Idle
    }
}

// How many clocks are unseen in an instant, from a clock on.
pub fn unseen_from(v: Instant, from: usize) -> usize {
    (from..8)
        .filter(|k| matches!(tick_at(v, *k), Tick::Unseen))
        .count()
}

// A tag's place with a rise, up to the greatest tag.
fn risen(above: u64, by: u64) -> u64 {
    above.saturating_add(by).min(65535)
}

// One of eight draws; unseen only while some are left.
fn tick_of(h: Habit, draw: u64, unseen: u64) -> Tick {
    if draw < h.0 {
        Tick::Idle
    } else if draw < h.1 {
        Tick::Ticks
    } else if unseen == 0 {
        Tick::Idle
    } else {
        Tick::Unseen
    }
}

// How many unseen ticks are left after one of them.
fn left(t: Tick, unseen: u64) -> u64 {
    match t {
        Tick::Unseen => unseen.saturating_sub(1),
        Tick::Idle | Tick::Ticks => unseen,
    }
}

// By how much a clock's tag rises.
fn rise(h: Habit, together: bool, alone: u64, all: u64) -> u64 {
    if together {
        all
    } else {
        h.2 % 65536 + alone % 65536
    }
}

// The next tick and tag of a clock.
fn with_next(p: Plan, mut c: Course, d: [u64; 48], k: usize) -> Course {
    if 8 <= k {
        return c;
    }
    let h = p.habits[k];
    let alone = below(d, 10 + k, h.3 % 8 + 1);
    let at = risen(c.above[k], rise(h, p.together, alone, below(d, 9, 3)));
    let tick = tick_of(h, below(d, k, 8), c.unseen);
    c.above[k] = at;
    c.unseen = left(tick, c.unseen);
    c.instant = with_clock(c.instant, k, tick, tag_above(at));
    c
}

// p × x + q in 16 bits.
fn wrapped(p: u64, x: u64, q: u64) -> u64 {
    ((p % 65536) * (x % 65536) + q % 65536) % 65536
}

// Clock 0 at p times clock 1's tag and q, in 16 bits.
fn followed(p: Plan, mut c: Course) -> Course {
    let x = c.above[1] % 65536 + 32768;
    c.instant.tags[0] = tag_of(word(wrapped(p.p, x, p.q)));
    c
}

// The next instant of a case.
pub fn next(p: Plan, c: Course, d: [u64; 48]) -> Course {
    let mut now = c;
    for k in 0..usize::from(p.sheet.clocks) {
        now = with_next(p, now, d, k);
    }
    if p.follows { followed(p, now) } else { now }
}
