// Cases that reach the limits: of distinct remainders, of obligations, of tags and of products.
ghost use Rattle.std.specs.Prelude.{◌≤◌};

use crate::plan::{Habit, Plan, ZERO, delayed, empty_sheet, maybe, pair, relation, sporadic, with};
use crate::random::{below, one_in};
use records::line::Line;
use records::sheet::Sheet;

// The habits of four clocks; more are idle.
pub(crate) fn four(h0: Habit, h1: Habit, h2: Habit, h3: Habit) -> [Habit; 8] {
    let idle = Habit(8, 8, 0, 0);
    [h0, h1, h2, h3, idle, idle, idle, idle]
}

// A plan whose tags rise each by itself.
pub(crate) fn plan(
    sheet: Sheet,
    habits: [Habit; 8],
    first: u64,
    instants: u64,
    unseen: u64,
) -> Plan {
    Plan {
        sheet,
        habits,
        first,
        instants,
        unseen,
        together: false,
        follows: false,
        p: 0,
        q: 0,
    }
}

// 0 delayed by 100 on 0 implies 1, 0 mostly unseen: a remainder for each set of ticks. A tick of 1 takes the smallest sets away, one of 2 goes with the empty set alone.
pub(crate) fn sets(d: [u64; 48]) -> Plan {
    let s = with(empty_sheet(3), delayed(0, 100, 0, 1));
    let s = maybe(d, 0, 2, s, pair(21 + below(d, 1, 2), 0, 1));
    let s = maybe(d, 2, 2, s, delayed(2, 100, 0, 1));
    let s = maybe(d, 2, 2, s, pair(23, 0, 2));
    let habits = four(
        Habit(below(d, 3, 3), 2, 1, below(d, 4, 2)),
        Habit(7, 8, 0, 0),
        Habit(6, 6 + below(d, 5, 2), 0, 0),
        Habit(8, 8, 0, 0),
    );
    plan(s, habits, ZERO, 8, 5 + below(d, 6, 3))
}

// Two precedes lines with clocks of their own, unseen: a remainder for each pair of leads.
pub(crate) fn leads(d: [u64; 48]) -> Plan {
    let s = with(empty_sheet(4), pair(21 + below(d, 0, 2), 0, 1));
    let s = with(s, pair(21 + below(d, 1, 2), 2, 3));
    let s = maybe(d, 2, 4, s, pair(18, 1, 0));
    let habits = four(
        Habit(below(d, 3, 2), 1, 0, 1),
        Habit(7, 8, 0, 1),
        Habit(below(d, 4, 8), 6, 0, 1),
        Habit(7, 8, 0, 1),
    );
    plan(s, habits, ZERO, 9, 7 + below(d, 5, 4))
}

// The sporadic line at a place, below 9, from three draws: of clock 2 on 0 or 1, near or far.
fn sporadic_at(d: [u64; 48], i: usize) -> Line {
    if 8 < i {
        return sporadic(2, 0, ZERO);
    }
    let at = 8 + 3 * i;
    let far = 40 * below(d, at, 2);
    let t = ZERO + far + below(d, at + 1, 5);
    sporadic(2, below(d, at + 2, 2), t)
}

// A sheet of n sporadic lines.
fn sporadics(d: [u64; 48], n: usize) -> Sheet {
    let mut s = empty_sheet(3);
    for i in 0..n {
        s = with(s, sporadic_at(d, i));
    }
    s
}

// Up to eight sporadic lines, and delay lines on ticks of 0: eight and nine owed, where one is met or late.
pub(crate) fn owed(d: [u64; 48]) -> Plan {
    let n = below(d, 0, 8);
    // (a usize has no `From` of 64 bits)
    let s = sporadics(d, 1 + n as usize);
    let s = with(s, delayed(0, 100, 1, 2));
    let s = maybe(d, 1, 2, s, delayed(0, 1 + below(d, 2, 3), 1, 2));
    let habits = four(
        Habit(below(d, 3, 5), 7, 0, 0),
        Habit(8, 8, 0, 1 + below(d, 4, 2)),
        Habit(below(d, 5, 3), 7, 0, 0),
        Habit(8, 8, 0, 0),
    );
    plan(s, habits, ZERO, 10, 4)
}

// Obligations that differ in their on-clock alone.
pub(crate) fn on_clocks(d: [u64; 48]) -> Plan {
    let t = ZERO + below(d, 0, 4);
    let by = below(d, 1, 4);
    let s = with(empty_sheet(4), sporadic(0, 1, t));
    let s = with(s, sporadic(0, 2, t));
    let s = with(s, delayed(3, by, 1, 0));
    let s = with(s, delayed(3, by, 2, 0));
    let habits = four(
        Habit(below(d, 2, 3), 5, 0, 0),
        Habit(8, 8, 0, 1),
        Habit(8, 8, 0, 1),
        Habit(4, 6, 0, 0),
    );
    plan(s, habits, ZERO, 8, 6)
}

// A tag at the lower end, or near the upper one: no conversion of a flag.
fn end_of(low: bool) -> u64
    ensures { result ≤ 65528 }
{
    if low { 0 } else { 65528 }
}

// Tags at one end of the scale or the other: dues at both, and delays that begin nothing, their dues would be past the upper one.
pub(crate) fn ends(d: [u64; 48]) -> Plan {
    let n = below(d, 0, 4);
    let end = end_of(one_in(d, 1, 2));
    let s = maybe(d, 2, 2, empty_sheet(3), sporadic(1, 0, end + n));
    let s = maybe(d, 3, 3, s, sporadic(1, 0, 65535 - end));
    let s = maybe(d, 4, 2, s, delayed(0, 65535 - n, 0, 1));
    let s = maybe(d, 5, 2, s, delayed(2, n, 2, 1));
    let s = maybe(d, 6, 4, s, relation(0, 2, 1, 0));
    let s = maybe(d, 7, 8, s, relation(0, 2, 65535, 65535));
    let each = Habit(1 + below(d, 8, 4), 6, 0, 2);
    plan(s, [each; 8], end, 8, 6)
}

// One of eight factors, as words: such that products pass 16 bits, and both ends.
fn factor(n: u64) -> u64 {
    match n {
        0 => 300,
        1 => 65236,
        2 => 257,
        3 => 32768,
        4 => 32767,
        5 => 2,
        6 => 65535,
        _ => 0,
    }
}

// Any tag, or one at most 120 from 0.
fn first_of(any: bool, d: [u64; 48]) -> u64 {
    if any {
        2 * below(d, 4, 32768) + below(d, 5, 2)
    } else {
        32648 + below(d, 4, 241)
    }
}

// 0 = p × 1 + q, and clock 0's tag is that in 16 bits: it fits where nothing wraps.
pub(crate) fn products(d: [u64; 48]) -> Plan {
    let p = factor(below(d, 0, 9));
    let q = factor(below(d, 1, 12));
    let s = with(empty_sheet(2), relation(0, 1, p, q));
    let each = Habit(4, 6, 0, below(d, 2, 2));
    let first = first_of(one_in(d, 3, 2), d);
    Plan {
        sheet: s,
        habits: [each; 8],
        first,
        instants: 4,
        unseen: 4,
        together: false,
        follows: true,
        p,
        q,
    }
}
