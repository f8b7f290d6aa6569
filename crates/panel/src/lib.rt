// The panel: how many of the live remainders owe a clock a tick.
#![tactic(auto)]

ghost use Rattle.std.specs.Prelude.{◌≡◌, ◌≤◌, take};
ghost use Rattle.records.specs.Outcome.{outcome_of};
ghost use Rattle.panel.specs.Panel.{owes_in, entry_owes, owing_count, panel_count};

use judge::monitor::{Monitor, within_limits};
use records::number;
use records::refusal::Refusal;
use remainders::obligation::Obligation;
use remainders::remainder::Remainder;

// One of the first n, of eight at most, is a tick of the clock.
fn ticks_in(n: usize, owed: [Obligation; 8], clock: u8) -> bool
    requires { n ≤ 8 }
    ensures { result ≡ owes_in clock n owed }
{
    owed[..n].iter().any(|o| o.clock == clock)
}

// An entry with more than eight obligations, or more than eight countdowns, owes none.
fn owes(r: Remainder, clock: u8) -> bool
    ensures { result ≡ entry_owes clock r }
{
    r.owed <= number::MAX_OWED
        && r.counting <= number::MAX_OWED
        && (ticks_in(r.owed, r.obligations, clock) || ticks_in(r.counting, r.countdowns, clock))
}

// How many entries of the list owe this clock a tick; the clock is compared as it stands.
pub fn owing(list: &[Remainder], clock: u8) -> usize
    ensures { result ≡ owing_count clock list.now }
{
    let mut n: usize = 0;
    for r in list {
        if owes(*r, clock) {
            n += 1;
        }
    }
    n
}

// Of a monitor: those that it holds, none once broken or exhausted.
pub fn panel_count(monitor: Monitor, clock: u8) -> Result<usize, Refusal>
    ensures { outcome_of result ≡ panel_count clock monitor }
{
    if !within_limits(monitor) {
        return Err(Refusal::MonitorLimits);
    }
    match monitor.held.count {
        None => Ok(0),
        Some(live) => Ok(owing(&monitor.held.remainders[..live], clock)),
    }
}
