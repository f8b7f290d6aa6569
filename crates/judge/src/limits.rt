// The limits of a monitor, refusal 11. A sheet that is handed in may have any count, so what follows the test of it asks for at most 16.
ghost use Rattle.std.specs.Prelude.{◌≡◌, ℕ, ◌≤◌, leb, take};
ghost use Rattle.records.specs.Sheet.{sheet_value};
ghost use Rattle.tesl.specs.Lists.{all};
ghost use Rattle.theory.specs.Step.{next_leads};
ghost use Rattle.work.specs.View.{in_use};
ghost use Rattle.judge.specs.Limits.{stored_within, set_within, remainder_within, held_within, Limited};

use crate::monitor::Monitor;
use records::line::Line;
use records::number;
use records::sheet::{Sheet, check_sheet};
use remainders::held::Held;
use remainders::obligation::{LEAST_DUE, LEAST_WANTED, MOST_DUE, MOST_WANTED, Obligation};
use remainders::remainder::Remainder;

// Its clocks below `clocks`, and its number within bounds.
pub fn obligation_within(clocks: u8, least: u16, most: u16, o: Obligation) -> bool
    ensures { result ≡ stored_within clocks least most o }
{
    o.clock < clocks && o.on < clocks && least <= o.number && o.number <= most
}

// Only a precedes line's lead is in use.
fn lead_within(l: Line, lead: u16, instants: usize) -> bool
    ensures { result ≡ leb (in_use l lead) instants }
{
    match l {
        Line::Weakly { .. } | Line::Strictly { .. } => usize::from(lead) <= instants,
        Line::Sporadic { .. }
        | Line::Relation { .. }
        | Line::Implies { .. }
        | Line::Excludes { .. }
        | Line::Delayed { .. }
        | Line::Kills { .. }
        | Line::Counted { .. } => true,
    }
}

fn leads_within(s: Sheet, leads: [u16; 16], instants: usize) -> bool
    requires { s.count ≤ 16 }
    ensures { result ≡ all (λ (n : ℕ). leb n instants) (next_leads in_use (sheet_value s).lines leads) }
{
    (0..s.count).all(|i| lead_within(s.lines[i], leads[i], instants))
}

// At most eight, each within bounds.
fn set_within(clocks: u8, least: u16, most: u16, n: usize, obligations: [Obligation; 8]) -> bool
    ensures { result ≡ set_within clocks least most n (take n obligations) }
{
    n <= number::MAX_OWED
        && obligations[..n]
            .iter()
            .all(|o| obligation_within(clocks, least, most, *o))
}

fn remainder_within(s: Sheet, instants: usize, r: Remainder) -> bool
    requires { s.count ≤ 16 }
    ensures { result ≡ remainder_within (sheet_value s) instants r }
{
    set_within(s.clocks, LEAST_DUE, MOST_DUE, r.owed, r.obligations)
        && set_within(
            s.clocks,
            LEAST_WANTED,
            MOST_WANTED,
            r.counting,
            r.countdowns,
        )
        && leads_within(s, r.leads, instants)
}

fn held_within(s: Sheet, instants: usize, h: Held) -> bool
    requires { s.count ≤ 16 }
    ensures { result ≡ held_within (sheet_value s) instants h.count h.remainders }
{
    match h.count {
        None => true,
        Some(n) => {
            n <= number::MAX_LIVE
                && h.remainders[..n]
                    .iter()
                    .all(|r| remainder_within(s, instants, *r))
        }
    }
}

// A sheet value within its own limits, the instants, and those held.
pub(crate) fn is_within(m: Monitor) -> bool
    ensures { Limited m result }
{
    match check_sheet(m.sheet) {
        Err(_) => false,
        Ok(()) => { m.instants <= number::MAX_INSTANTS && held_within(m.sheet, m.instants, m.held) }
    }
}
