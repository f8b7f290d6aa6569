// A filled run: at each of its instants the clocks that tick, and their tags.
ghost use Rattle.std.specs.Prelude.{◌≤◌, ◌<◌};

use records::instant::{Instant, Tick};
use records::sheet::Sheet;

// An instant without unseen ticks; its ticks and tags are two arrays, as in `Instant`, whose tags it has.
#[derive(Clone, Copy)]
pub(crate) struct Filled {
    // Which clocks tick; of those past the sheet's none does.
    pub(crate) ticking: [bool; 8],
    // The clocks' tags; those past the sheet's are at tag 0.
    pub(crate) tags: [i16; 8],
}

impl Filled {
    // A clock past the eighth is idle.
    pub(crate) fn ticks(&self, k: u8) -> bool {
        k < 8 && self.ticking[usize::from(k)]
    }

    // A clock past the eighth is at tag 0.
    pub(crate) fn tag(&self, k: u8) -> i16 {
        if k < 8 { self.tags[usize::from(k)] } else { 0 }
    }
}

// How many clocks a sheet has, at most 8.
fn clock_count(s: Sheet) -> usize
    ensures { result ≤ 8 }
{
    usize::from(s.clocks).min(8)
}

// The unseen ticks of an instant.
fn unseen_at(s: Sheet, v: &Instant) -> usize
    ensures { result ≤ 8 }
{
    v.ticks[..clock_count(s)]
        .iter()
        .filter(|t| matches!(t, Tick::Unseen))
        .count()
}

// The unseen ticks of the instants, at most 12: those past the twelfth are not counted.
fn unseen_count(s: Sheet, run: &[Instant]) -> usize
    ensures { result ≤ 12 }
{
    let mut all: usize = 0;
    for v in run {
        all = (all + unseen_at(s, v)).min(12);
    }
    all
}

// How many fillings the instants have: two for each unseen tick.
pub(crate) fn filling_count(s: Sheet, run: &[Instant]) -> usize {
    1 << unseen_count(s, run)
}

// An unseen tick is the lowest bit.
fn filled_tick(t: Tick, bits: usize) -> bool {
    match t {
        Tick::Idle => false,
        Tick::Ticks => true,
        Tick::Unseen => bits % 2 == 1,
    }
}

// The bits that are left.
fn next_bits(t: Tick, bits: usize) -> usize {
    match t {
        Tick::Unseen => bits / 2,
        Tick::Idle | Tick::Ticks => bits,
    }
}

// Sets a clock's ticks, the unseen ones by the bits, and its tags; the bits that are left for the next clocks.
fn fill_clock(filled: &mut [Filled], run: &[Instant], k: usize, bits: usize) -> usize
    requires { k < 8 }
{
    let mut rest = bits;
    for (f, v) in filled.iter_mut().zip(run) {
        let t = v.ticks[k];
        f.ticking[k] = filled_tick(t, rest);
        f.tags[k] = v.tags[k];
        rest = next_bits(t, rest);
    }
    rest
}

// The instants, at the front, filled by a number, whose bits are the unseen ticks, clock by clock.
pub(crate) fn fill(s: Sheet, run: &[Instant], filling: usize) -> [Filled; 16] {
    let idle = Filled {
        ticking: [false; 8],
        tags: [0; 8],
    };
    let mut filled = [idle; 16];
    let mut bits = filling;
    for k in 0..clock_count(s) {
        bits = fill_clock(&mut filled, run, k, bits);
    }
    filled
}
