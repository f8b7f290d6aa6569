// Cases of five to eight clocks.
use crate::generic;
use crate::plan::{Habit, Plan, byte, empty_sheet, maybe, pair, with};
use crate::random::below;
use records::line::Line;
use records::sheet::{Sheet, line_at};

// A clock so many places up.
fn up_from(k: u8, up: u64) -> u8 {
    byte(u64::from(k) + up % 8)
}

// A line, its clocks so many places up.
fn moved_line(l: Line, up: u64) -> Line {
    let at = |k: u8| up_from(k, up);
    match l {
        Line::Sporadic { a, b, t } => Line::Sporadic {
            a: at(a),
            b: at(b),
            t,
        },
        Line::Relation { a, b, p, q } => Line::Relation {
            a: at(a),
            b: at(b),
            p,
            q,
        },
        Line::Implies { a, b } => Line::Implies { a: at(a), b: at(b) },
        Line::Excludes { a, b } => Line::Excludes { a: at(a), b: at(b) },
        Line::Delayed { a, b, d, by } => Line::Delayed {
            a: at(a),
            b: at(b),
            d: at(d),
            by,
        },
        Line::Weakly { a, b } => Line::Weakly { a: at(a), b: at(b) },
        Line::Strictly { a, b } => Line::Strictly { a: at(a), b: at(b) },
        Line::Kills { a, b } => Line::Kills { a: at(a), b: at(b) },
        Line::Counted { a, b, d, n } => Line::Counted {
            a: at(a),
            b: at(b),
            d: at(d),
            n,
        },
    }
}

// A sheet, its clocks so many places up.
fn moved_sheet(s: Sheet, up: u64) -> Sheet {
    let mut moved = empty_sheet(u64::from(up_from(s.clocks, up)));
    for i in 0..s.count {
        moved = with(moved, moved_line(line_at(s, i), up));
    }
    moved
}

// Clocks below the lowest place are seen at every instant.
fn moved_habits(habits: [Habit; 8], up: usize) -> [Habit; 8] {
    let lowest = up.min(8);
    let mut moved = [Habit(6, 8, 0, 1); 8];
    moved[lowest..].copy_from_slice(&habits[..8 - lowest]);
    moved
}

// A line of two clocks, of any below so many.
fn another_line(d: [u64; 48], clocks: u8) -> Line {
    let n = u64::from(clocks);
    pair(18 + below(d, 42, 6), below(d, 43, n), below(d, 44, n))
}

// A case of few clocks so many places up, and perhaps a line of two clocks more, over all of them.
pub(crate) fn moved(mut p: Plan, up: u64, d: [u64; 48]) -> Plan {
    let s = moved_sheet(p.sheet, up);
    p.sheet = maybe(d, 41, 2, s, another_line(d, s.clocks));
    // (a usize has no `From` of 64 bits)
    p.habits = moved_habits(p.habits, up as usize);
    p
}

// Eight clocks, all or most unseen in the first instant.
pub(crate) fn unseen(d: [u64; 48]) -> Plan {
    let each = Habit(0, below(d, 2, 3), 0, 2);
    let mut next = generic::plan(d, 8, 8 + below(d, 3, 2));
    next.habits = [each; 8];
    next.instants = 3;
    next
}
