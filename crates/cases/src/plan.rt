// A case: a sheet, and how its instants are drawn.
use crate::random::one_in;
use records::line::Line;
use records::sheet::{Sheet, line_at};
use records::word::tag_of;

// The tag 0, counted from the least tag.
pub const ZERO: u64 = 32768;

// A clock's habits (i, t, l, m): of eight draws the first i are idle, those from there to t tick, the others are unseen; its tag rises by l to l + m.
#[derive(Clone, Copy)]
pub struct Habit(pub u64, pub u64, pub u64, pub u64);

#[derive(Clone, Copy)]
pub struct Plan {
    pub sheet: Sheet,
    // Of each clock.
    pub habits: [Habit; 8],
    // The first tag of every clock, counted from the least tag.
    pub first: u64,
    // How many instants.
    pub instants: u64,
    // How many unseen ticks in all.
    pub unseen: u64,
    // The tags of all clocks rise alike.
    pub together: bool,
    // Clock 0's tag is p × clock 1's + q in 16 bits.
    pub follows: bool,
    // The word of p.
    pub p: u64,
    // The word of q.
    pub q: u64,
}

// A number drawn, cut to a byte: `try_from` would refuse what is to be cut.
pub fn byte(x: u64) -> u8 {
    (x % 256) as u8
}

pub fn word(x: u64) -> u16 {
    (x % 65536) as u16
}

// The tag that is so far above the least tag.
pub fn tag_above(x: u64) -> i16 {
    tag_of(word(x % 65536 + ZERO))
}

pub fn empty_sheet(clocks: u64) -> Sheet {
    let line = Line::Implies { a: 0, b: 0 };
    Sheet {
        clocks: byte(clocks),
        count: 0,
        lines: [line; 16],
    }
}

// A sheet with one line more; a seventeenth is left out.
pub fn with(mut s: Sheet, line: Line) -> Sheet {
    if s.count < 16 {
        s.lines[s.count] = line;
        s.count += 1;
    }
    s
}

// A sheet with one line more, where the draw at a place is the first of n.
pub fn maybe(d: [u64; 48], at: usize, n: u64, s: Sheet, line: Line) -> Sheet {
    if one_in(d, at, n) { with(s, line) } else { s }
}

pub fn sporadic(a: u64, b: u64, above: u64) -> Line {
    Line::Sporadic {
        a: byte(a),
        b: byte(b),
        t: tag_above(above),
    }
}

// The words of p and q.
pub fn relation(a: u64, b: u64, p: u64, q: u64) -> Line {
    Line::Relation {
        a: byte(a),
        b: byte(b),
        p: tag_of(word(p)),
        q: tag_of(word(q)),
    }
}

pub fn delayed(a: u64, by: u64, b: u64, d: u64) -> Line {
    Line::Delayed {
        a: byte(a),
        b: byte(b),
        d: byte(d),
        by: word(by),
    }
}

pub fn counts(a: u64, n: u64, b: u64, d: u64) -> Line {
    Line::Counted {
        a: byte(a),
        b: byte(b),
        d: byte(d),
        n: byte(n),
    }
}

fn is_counted(l: Line) -> bool {
    matches!(l, Line::Counted { .. })
}

// Whether a sheet whose lines rise has a counted one: they stand behind all others.
pub fn has_counted(s: Sheet) -> bool {
    0 < s.count && is_counted(line_at(s, s.count - 1))
}

// Whether a sheet whose lines rise has a line, and counted ones alone.
pub fn all_counted(s: Sheet) -> bool {
    0 < s.count && is_counted(line_at(s, 0))
}

// How far a line counts, for each of 8 draws.
pub fn count_of(draw: u64) -> u64 {
    match draw {
        0..=2 => 1,
        3..=4 => 2,
        5..=6 => 3,
        _ => 255,
    }
}

// A line of two clocks, by its kind.
pub fn pair(kind: u64, a: u64, b: u64) -> Line {
    let x = byte(a);
    let y = byte(b);
    match kind {
        18 => Line::Implies { a: x, b: y },
        19 => Line::Excludes { a: x, b: y },
        21 => Line::Weakly { a: x, b: y },
        22 => Line::Strictly { a: x, b: y },
        _ => Line::Kills { a: x, b: y },
    }
}
