// What depends on a filling alone, gathered once for all rows.
ghost use Rattle.step.specs.Filling.{Gathered};

use lines::delays::{NewObligations, begin_delays};
use lines::leads::{LeadChanges, lead_changes};
use lines::plan::{NUMBERS, Plan};
use lines::rules::all_stops;
use remainders::obligation::{MOST_DUE, Obligation};

// A filled instant, and what the lines make of it. Each array is asked by itself, by clock, by line or in the order in which things begin.
#[derive(Clone, Copy)]
pub struct Filling {
    // The clocks that tick.
    pub ticks: [bool; 8],
    // The instant's tags.
    pub tags: [i16; 8],
    // The clocks that lines stop.
    pub stops: [bool; 8],
    // What each precedes line needs of its lead.
    pub needs: [u16; 16],
    // What its lead gains.
    pub gains: [u16; 16],
    // What its lead loses.
    pub losses: [u16; 16],
    // How many delay lines begin.
    pub owed: usize,
    // How many begin in all.
    pub count: usize,
    // Those that delay lines begin, and behind them those that counted lines do.
    pub begun: [Obligation; 16],
}

// What a filling that the rules allow asks of every row and makes of it.
pub(crate) fn gather(
    lines: &[u32; NUMBERS],
    plan: Plan,
    ticks: [bool; 8],
    tags: [i16; 8],
) -> Filling
    ensures { Gathered lines.now plan ticks tags result }
{
    let stops = all_stops(lines, plan.rules, ticks);
    let LeadChanges {
        needs,
        gains,
        losses,
    } = lead_changes(lines, plan.leaders, ticks);
    let NewObligations { owed, count, begun } = begin_delays(
        lines,
        plan.delays,
        plan.counted,
        ticks,
        tags,
        MOST_DUE,
    );
    Filling {
        ticks,
        tags,
        stops,
        needs,
        gains,
        losses,
        owed,
        count,
        begun,
    }
}
