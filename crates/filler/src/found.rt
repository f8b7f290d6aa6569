// The distinct remainders of the fillings of a run.
use crate::few::Few;
use crate::remainder::{Owed, Remainder, no_remainder, owes_tick};

pub(crate) type Found = Few<Remainder, 32>;

// Each obligation of a is one of b.
fn owes_all(a: &Owed, b: &Owed) -> bool {
    a.all().iter().all(|o| b.all().contains(o))
}

// The same obligations, in whatever order.
fn same_owed(a: &Owed, b: &Owed) -> bool {
    owes_all(a, b) && owes_all(b, a)
}

// The same but for the order of the obligations.
fn same_remainder(a: &Remainder, b: &Remainder) -> bool {
    a.leads == b.leads
        && a.stopped == b.stopped
        && same_owed(&a.owed, &b.owed)
        && same_owed(&a.counted, &b.counted)
}

// Nothing is found.
pub(crate) fn none_found() -> Found {
    Few::none(no_remainder())
}

// With one remainder more, unless an equal one is there; none where it would be the 33rd.
pub(crate) fn with_remainder(found: Found, r: Remainder) -> Option<Found> {
    if found.all().iter().any(|x| same_remainder(x, &r)) {
        Some(found)
    } else {
        found.with(r)
    }
}

// No obligation of either sort.
fn owes_none(r: &Remainder) -> bool {
    r.owed.all().is_empty() && r.counted.all().is_empty()
}

// One of them has no obligation.
pub(crate) fn is_clear(found: &Found) -> bool {
    found.all().iter().any(|r| owes_none(r))
}

// One of its obligations, of either sort, wants a tick of this clock.
fn owes_clock(r: &Remainder, clock: u8) -> bool {
    owes_tick(&r.owed, clock) || owes_tick(&r.counted, clock)
}

// How many of them owe this clock a tick.
pub(crate) fn owing_count(found: &Found, clock: u8) -> usize {
    found.all().iter().filter(|r| owes_clock(r, clock)).count()
}
