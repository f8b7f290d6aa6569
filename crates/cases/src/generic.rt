// Cases of every kind of line, 0 to 6 lines.
use crate::plan::{
    Habit, Plan, count_of, counts, delayed, empty_sheet, pair, relation, sporadic, with,
};
use crate::random::{below, one_in};
use records::line::Line;
use records::sheet::Sheet;

// The first tag is -2.
const FIRST: u64 = 32766;

// A kind of line for each of 24 draws.
fn kind_of(draw: u64) -> u64 {
    match draw {
        0..=3 => 16,
        4..=5 => 17,
        6..=10 => 20,
        11..=12 => 18,
        13 => 19,
        14..=15 => 21,
        16..=17 => 22,
        18..=19 => 23,
        _ => 24,
    }
}

// The line at a place, below 7, from six draws.
fn line(d: [u64; 48], i: usize, clocks: u64) -> Line {
    if 6 < i {
        return pair(18, 0, 0);
    }
    let at = 6 + 6 * i;
    let kind = kind_of(below(d, at, 24));
    let a = below(d, at + 1, clocks);
    let b = below(d, at + 2, clocks);
    let n = below(d, at + 3, 8);
    let c = below(d, at + 4, 8);
    match kind {
        16 => sporadic(a, b, FIRST + n),
        17 => relation(a, b, factor(n), c / 7),
        20 => delayed(a, n % 4, b, below(d, at + 5, clocks)),
        24 => counts(a, count_of(n), b, below(d, at + 5, clocks)),
        _ => pair(kind, a, b),
    }
}

// p of a relation as a word, mostly 1: of 8 draws.
fn factor(draw: u64) -> u64 {
    match draw {
        0 => 0,
        1 => 2,
        2 => 65535,
        _ => 1,
    }
}

// A sheet of so many lines.
fn sheet(d: [u64; 48], clocks: u64, lines: u64) -> Sheet {
    let mut s = empty_sheet(clocks);
    // (a usize has no `From` of 64 bits)
    for i in 0..lines as usize {
        s = with(s, line(d, i, clocks));
    }
    s
}

// A case of so many clocks and unseen ticks.
pub(crate) fn plan(d: [u64; 48], clocks: u64, unseen: u64) -> Plan {
    let lines = below(d, 1, 7);
    let each = Habit(below(d, 2, 5), 5, 0, 2);
    Plan {
        sheet: sheet(d, clocks, lines),
        habits: [each; 8],
        first: FIRST,
        instants: 8,
        unseen,
        together: one_in(d, 4, 2),
        follows: false,
        p: 0,
        q: 0,
    }
}
