// The instants of a case, as a list.
use crate::course;
use crate::course::idle_instant;
use crate::made::instants_of;
use crate::plan::Plan;
use crate::random::draw;
use filler::run::{Run, no_instants, with_instant};
use records::instant::Instant;

#[derive(Clone, Copy)]
pub struct Listed {
    // The last number drawn.
    pub last: u64,
    // The instants.
    pub run: Run,
}

// The instants of a case, drawn from the number after `from` on.
pub fn run_of(plan: Plan, from: u64) -> Listed {
    let mut c = course::begin(plan);
    let mut run = no_instants();
    let mut last = from;
    for _ in 0..instants_of(plan) {
        let drawn = draw(last);
        c = course::next(plan, c, drawn.numbers);
        run = with_instant(run, c.instant);
        last = drawn.last;
    }
    Listed { last, run }
}

// The instant at a place below 16; an idle one past it.
pub fn instant_at(run: Run, i: usize) -> Instant {
    if i < 16 {
        run.instants[i]
    } else {
        idle_instant()
    }
}
