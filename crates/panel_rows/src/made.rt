// Monitors: opened, called, and made from these with other parts.
use judge::monitor::{Monitor, observe, open};
use remainders::held::Held;
use remainders::obligation::Obligation;

pub fn opened(sheet: &[u8]) -> Monitor {
    open(sheet).monitor
}

pub fn after(m: Monitor, instant: &[u8]) -> Monitor {
    observe(m, instant).monitor
}

// The monitor with another count of those held, each like its first.
pub fn counted(mut m: Monitor, count: Option<usize>) -> Monitor {
    let first = m.held.remainders[0];
    let remainders = [first; 32];
    m.held = Held { count, remainders };
    m
}

// The monitor with another number of obligations in its first remainder.
pub fn owing(mut m: Monitor, owed: usize) -> Monitor {
    m.held.remainders[0].owed = owed;
    m
}

// The monitor with other sets in its first remainder: so many obligations, each like the one given, and so many countdowns.
pub fn with_sets(
    mut m: Monitor,
    owed: usize,
    due: Obligation,
    counting: usize,
    wanted: Obligation,
) -> Monitor {
    let first = &mut m.held.remainders[0];
    first.owed = owed;
    first.obligations = [due; 8];
    first.counting = counting;
    first.countdowns = [wanted; 8];
    m
}
