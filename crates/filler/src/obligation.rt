// Obligations, and which of them the instants of a filled run meet.
use crate::history::Filled;

#[derive(Clone, Copy, Debug, PartialEq, Eq)]
pub(crate) struct Obligation {
    // Which clock is to tick.
    pub(crate) clock: u8,
    // The clock that says when.
    pub(crate) on: u8,
    // The tag of `on` at which it is to, or, of a line that counts, how many ticks of `on` are still wanted.
    pub(crate) due: i64,
}

// What a tick at this instant begins of a delay line; the due is formed in 64 bits, where it doesn't wrap.
pub(crate) fn begun_at(v: &Filled, b: u8, d: u8, by: u16) -> Obligation {
    Obligation {
        clock: d,
        on: b,
        due: i64::from(v.tag(b)) + i64::from(by),
    }
}

// At one of the instants the clock ticks, and the on-tag equals the due.
pub(crate) fn is_met(f: &[Filled], o: Obligation) -> bool {
    f.iter()
        .any(|v| v.ticks(o.clock) && i64::from(v.tag(o.on)) == o.due)
}

// The due is at or above the last on-tag; with no instant it is.
fn is_open(f: &[Filled], o: Obligation) -> bool {
    f.last().is_none_or(|v| i64::from(v.tag(o.on)) <= o.due)
}

// Met, or the due is not passed.
pub(crate) fn is_kept(f: &[Filled], o: Obligation) -> bool {
    is_met(f, o) || is_open(f, o)
}
