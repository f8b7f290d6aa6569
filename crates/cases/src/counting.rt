// Cases of lines that count, and of both sets of obligations at their limits.
use crate::families::{four, plan};
use crate::plan::{
    Habit, Plan, ZERO, count_of, counts, delayed, empty_sheet, maybe, pair, sporadic, with,
};
use crate::random::below;

// Counts of 1, 2, 3 and 255 on ticks of 1, half of them unseen: begun by 0 and by 1 itself, for 2 and for 1 itself.
pub(crate) fn few(d: [u64; 48]) -> Plan {
    let s = with(empty_sheet(3), counts(0, count_of(below(d, 0, 8)), 1, 2));
    let s = maybe(d, 1, 3, s, counts(1, count_of(below(d, 2, 8)), 1, 2));
    let s = maybe(d, 3, 3, s, counts(0, count_of(below(d, 4, 8)), 1, 1));
    let s = maybe(d, 5, 4, s, counts(1, count_of(below(d, 6, 8)), 1, 1));
    let s = maybe(d, 7, 3, s, pair(18, 1, 2));
    let s = maybe(d, 8, 4, s, delayed(0, below(d, 9, 3), 1, 2));
    let habits = four(
        Habit(2 + below(d, 10, 3), 7, 0, 1),
        Habit(2, 4, 0, 1),
        Habit(below(d, 11, 3), 6, 0, 1),
        Habit(8, 8, 0, 0),
    );
    plan(s, habits, ZERO, 8, 4 + below(d, 12, 4))
}

// A count for each of 3 draws: the last tick of eight, of nine, and none that comes.
fn far_count(draw: u64) -> u64 {
    match draw {
        0 => 8,
        1 => 9,
        _ => 255,
    }
}

// Ticks of 0, each of which begins a count on 0 itself and perhaps a far due: eight and nine of one set, of the other, eight of both; a due one may be missed where a set has nine.
pub(crate) fn many(d: [u64; 48]) -> Plan {
    let s = with(empty_sheet(3), counts(0, far_count(below(d, 0, 3)), 0, 2));
    let s = maybe(d, 1, 4, s, counts(0, 255, 0, 1));
    let s = maybe(d, 2, 2, s, delayed(0, 100, 0, 1));
    let s = maybe(d, 3, 3, s, sporadic(2, 1, ZERO + 40));
    let s = maybe(d, 4, 3, s, counts(0, 1, 0, 1));
    let habits = four(
        Habit(below(d, 5, 2), 7 + below(d, 6, 2), 1, 0),
        Habit(1, 8, 0, 1),
        Habit(1, 8, 0, 1),
        Habit(8, 8, 0, 0),
    );
    plan(s, habits, ZERO, 10, 1 + below(d, 7, 3))
}
